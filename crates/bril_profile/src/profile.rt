// Profiles and their entries.

ghost use Rattle.std.specs.Prelude.{◌≡◌, ◌≤◌, [], All, length};

use bril_tree::name::Name;
use bril_tree::sequence::Seq;
use std::alloc::Global;

/// The way of a run from a label of a function on: at each `br` in turn, true where it took the first label. `count` tells how
/// often the run arrived at the label. The names may be those of no function and no label.
#[derive(Drop)]
pub struct Entry {
    pub func: Name,
    pub label: Name,
    pub choices: Seq<bool>,
    pub count: u32,
}

/// What a run took: at most 64 entries, each of at most 256 choices and with a count of at least 1.
#[derive(Drop)]
pub struct Profile {
    pub entries: Seq<Entry>,
    pub ghost few: { length entries ≤ 64 },
    pub ghost short: { All (λ entry. length entry.choices ≤ 256) entries },
    pub ghost counted: { All (λ entry. 1 ≤ entry.count) entries },
}

impl Profile {
    /// The profile without entries. Takes no memory.
    pub fn without_entries(alloc: Global) -> Profile
        ensures { result.entries ≡ [] }
    {
        Profile {
            entries: Seq::new(alloc),
        }
    }
}
