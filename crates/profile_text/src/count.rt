// The count of an entry, as digits.

ghost use Rattle.std.specs.Fmt.{decimal};
ghost use Rattle.std.specs.Prelude.{◌≡◌, ◌<◌, ◌^◌, ◌++◌, ◌∷◌, [], ℕ, MatchOption, OnOk};
ghost use Rattle.profile_text.specs.Form.{IsCount};
ghost use Rattle.profile_text.specs.declared.version.Version.TheVariants.{Second};

use bril_tree::bytes::Bytes;
use itoa::Buffer;
use std::alloc::AllocError;

// The count, 1 to 4,294,967,295, that the digits spell without a leading zero; None where they spell none. Takes no memory.
pub fn read_count(digits: &[u8]) -> Option<u32>
    ensures { MatchOption result ((count : ℕ) → IsCount Second count → digits.now ≡ decimal count → ⊥) (λ count. (digits.now ≡ decimal count) × IsCount Second count) }
{
    if digits.is_empty() || digits[0] == b'0' || digits[0] == b'+' {
        return None;
    }
    match str::from_utf8(digits) {
        Ok(text) => text.parse().ok(),
        Err(_) => None,
    }
}

// Appends a space, the digits of the count, and LF.
pub fn put_count(count: u32, into: &mut Bytes) -> Result<(), AllocError>
    ensures text { OnOk result (into.new ≡ into.old ++ (32 ∷ (decimal count ++ 10 ∷ []))) }
    ensures low { OnOk result (count < 2 ^ 32) }
{
    let mut buffer = Buffer::new();
    into.add(b" ")?;
    into.add(buffer.format(count).as_bytes())?;
    into.add(b"\n")
}
