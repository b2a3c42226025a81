// Bits of words.

ghost use Rattle.std.specs.Prelude.{◌≡◌, ◌≢◌, ◌<◌, ◌↔◌, ℕ, true};
ghost use Rattle.graph_search.specs.Sets.{has_bit};

/// The word of 64 bits whose only 1 is bit k. Takes no memory.
pub fn one_bit(k: u32) -> u64
    requires { k < 64 }
    ensures { (j : ℕ) → (has_bit result j ≡ true) ↔ (j ≡ k) }
{
    1 << k
}

/// The word of 64 bits whose only 0 is bit k. Takes no memory.
pub fn all_but(k: u32) -> u64
    requires { k < 64 }
    ensures { (j : ℕ) → j < 64 → (has_bit result j ≡ true) ↔ (j ≢ k) }
{
    !one_bit(k)
}

/// The word of 64 bits of 1. Takes no memory.
pub fn all_bits() -> u64
    ensures { (j : ℕ) → j < 64 → has_bit result j ≡ true }
{
    u64::MAX
}

// Whether bit k of the word is 1.
pub(crate) fn tests_bit(word: u64, k: u32) -> bool
    requires { k < 64 }
    ensures { result ≡ has_bit word k }
{
    (word >> k) & 1 == 1
}
