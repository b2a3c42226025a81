// Arithmetic on ints of 64 bits, and the characters that they number.
ghost use Rattle.std.specs.Prelude.{◌≡◌, ◌↔◌, ℕ, ℤ, pos, ◌+ℤ◌, ◌-ℤ◌, ◌*ℤ◌, IsNone, IfSome, IsTrue};
ghost use Rattle.std.specs.Int.{int_wrap, w64};
ghost use Rattle.std.specs.Char.{InScalarRange};
ghost use Rattle.bril_nums.specs.Arith.{quotient, scalar_of};

/// The sum of two ints, modulo 2^64, in the range -2^63 to 2^63 - 1.
///
/// This is `add` of the Bril documentation, core language.
pub fn wrap_add(a: i64, b: i64) -> i64
    ensures { result ≡ int_wrap w64 (a +ℤ b) }
{
    a.wrapping_add(b)
}

/// The difference of two ints, modulo 2^64, in the range -2^63 to 2^63 - 1.
///
/// This is `sub` of the Bril documentation, core language.
pub fn wrap_sub(a: i64, b: i64) -> i64
    ensures { result ≡ int_wrap w64 (a -ℤ b) }
{
    a.wrapping_sub(b)
}

/// The product of two ints, modulo 2^64, in the range -2^63 to 2^63 - 1.
///
/// This is `mul` of the Bril documentation, core language.
pub fn wrap_mul(a: i64, b: i64) -> i64
    ensures { result ≡ int_wrap w64 (a *ℤ b) }
{
    a.wrapping_mul(b)
}

/// The quotient of two ints, rounded toward zero, modulo 2^64: the least int by -1 is the least int.
///
/// `None` exactly where the divisor `b` is 0.
///
/// This is `div` of the Bril documentation, core language.
pub fn quot(a: i64, b: i64) -> Option<i64>
    ensures value { result ≡ quotient a b }
    ensures zero { IsNone result ↔ (b ≡ pos 0) }
{
    if b == 0 {
        None
    } else {
        Some(a.wrapping_div(b))
    }
}

/// The character with the number `n`, where `n` is a Unicode scalar value: 0 to 0xD7FF or 0xE000 to 0x10FFFF.
///
/// `None` exactly where `n` is no scalar value (the Unicode Standard, section 3.9, "Unicode scalar value").
///
/// This is `int2char` of the Bril documentation, character extension.
pub fn scalar(n: i64) -> Option<char>
    ensures value { result ≡ scalar_of n }
    ensures found { IfSome result (λ c. (n ≡ pos c) × InScalarRange c) }
    ensures each { (c : ℕ) → InScalarRange c → n ≡ pos c → result ≡ Some c }
{
    char::from_u32(u32::try_from(n).ok()?)
}
