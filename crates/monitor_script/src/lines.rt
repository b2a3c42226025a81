// Parts of a source.

ghost use Rattle.std.specs.Prelude.{◌≡◌, ◌∷◌, ◌++◌, ℕ, List, MatchOption};
ghost use Rattle.monitor_script.specs.Form.{Lacks};

// What stands before the first such byte, and what behind it; None where there is none.
pub fn split_at_byte(bytes: &[u8], byte: u8) -> Option<(&[u8], &[u8])>
    ensures { MatchOption result (Lacks byte bytes.now) (λ p. (bytes.now ≡ p.0.now ++ byte ∷ p.1.now) × Lacks byte p.0.now) }
{
    for (i, found) in bytes.iter().enumerate() {
        if *found == byte {
            return Some((&bytes[..i], &bytes[i + 1..]));
        }
    }
    None
}

// What stands behind these first bytes; None where the bytes don't begin with them.
pub fn behind<'a>(bytes: &'a [u8], front: &[u8]) -> Option<&'a [u8]>
    ensures { MatchOption result ((rest : List ℕ) → bytes.now ≡ front.now ++ rest → ⊥) (λ rest. bytes.now ≡ front.now ++ rest.now) }
{
    bytes.strip_prefix(front)
}
