// The decimal text of an int.
ghost use Rattle.std.specs.Prelude.{◌≡◌, ℤ, ◌≤◌, take, drop, IfSome, FitsSigned};
ghost use Rattle.std.specs.Int.{w64};
ghost use Rattle.std.specs.Fmt.{signed_decimal};
ghost use Rattle.bril_nums.specs.Decimal.{IsInt, IsPlainDecimal, int_of};

use itoa::Buffer;
use std::str;

/// Reads an int: an optional `+` or `-`, then one or more ASCII digits. Any number of leading zeros is allowed.
///
/// `None` exactly where the bytes are anything else, or the number that they spell is outside -2^63 to 2^63 - 1.
pub fn read_int(bytes: &[u8]) -> Option<i64>
    ensures value { result ≡ int_of bytes.now }
    ensures found { IfSome result (λ z. IsInt bytes.now z) }
    ensures each { (z : ℤ) → FitsSigned w64 z → IsInt bytes.now z → result ≡ Some z }
{
    let text = str::from_utf8(bytes).ok()?;
    text.parse().ok()
}

/// Writes the plain decimal of `n` into the first bytes of `into`, and returns how many bytes it has, 1 to 20.
///
/// The plain decimal has a `-` exactly where `n` is below 0, and no leading zero. The other bytes of `into` are
/// unchanged.
///
/// This is how `print` of the Bril documentation, core language, writes an int.
pub fn put_int(n: i64, into: &mut [u8; 20]) -> usize
    ensures text { take result into.new ≡ signed_decimal n }
    ensures plain { IsPlainDecimal (take result into.new) n }
    ensures not_empty { 1 ≤ result }
    ensures short { result ≤ 20 }
    ensures rest { drop result into.new ≡ drop result into.old }
{
    let mut buffer = Buffer::new();
    let text = buffer.format(n).as_bytes();
    into[..text.len()].copy_from_slice(text);
    text.len()
}
