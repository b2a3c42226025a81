// The item of an order, as digits.

ghost use Rattle.std.specs.Fmt.{decimal};
ghost use Rattle.std.specs.Prelude.{◌≡◌, ◌<◌, ◌^◌, ℕ, MatchOption};

// The item, 0 to 4,294,967,295, that the digits spell without a leading zero; None where they spell none. Takes no memory.
pub fn read_item(digits: &[u8]) -> Option<u32>
    ensures { MatchOption result ((item : ℕ) → item < 2 ^ 32 → digits.now ≡ decimal item → ⊥) (λ item. (digits.now ≡ decimal item) × (item < 2 ^ 32)) }
{
    if digits == b"0".as_slice() {
        return Some(0);
    }
    if digits.is_empty() || digits[0] == b'0' || digits[0] == b'+' {
        return None;
    }
    match str::from_utf8(digits) {
        Ok(text) => text.parse().ok(),
        Err(_) => None,
    }
}
