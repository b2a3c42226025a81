// The versions of the form.

ghost use Rattle.std.specs.Prelude.{◌≡◌, MatchOption};
ghost use Rattle.profile_text.specs.Form.{first_line};

// Version 1 has no counts. In version 2 each entry has one.
#[derive(Clone, Copy, Drop)]
pub enum Version {
    First,
    Second,
}

// The version of which this is the first line; None where it is none's. Takes no memory.
pub fn version_of(line: &[u8]) -> Option<Version>
    ensures { MatchOption result ((version : Version) → line.now ≡ first_line version → ⊥) (λ version. line.now ≡ first_line version) }
{
    if line == b"bril-profile 1".as_slice() {
        return Some(Version::First);
    }
    if line == b"bril-profile 2".as_slice() {
        return Some(Version::Second);
    }
    None
}
