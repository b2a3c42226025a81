// Parts of a tree that are written one after another.

ghost use Rattle.std.specs.Prelude.{◌≡◌, ℕ, ◌∷◌, ◌++◌, List, All, OnOk, codes};
ghost use Rattle.std.specs.List.{flat_map, join_by};

use bril_tree::bytes::Bytes;
use std::alloc::AllocError;

// A part of a tree that is written as text.
pub trait Part {
    // Its canonical text, and what it means to be a valid part of a tree.
    ghost canonical: { Self → List ℕ };

    ghost is_part: { Self → Type 0 };

    // Appends its canonical text.
    fn put(&self, into: &mut Bytes) -> Result<(), AllocError>
        ensures text { OnOk result (into.new ≡ into.old ++ canonical self.now) }
        ensures valid { OnOk result (is_part self.now) };
}

// Appends the parts, one after another.
pub fn put_each<T: Part>(parts: &[T], into: &mut Bytes) -> Result<(), AllocError>
    ensures text { OnOk result (into.new ≡ into.old ++ flat_map T.canonical parts.now) }
    ensures valid { OnOk result (All T.is_part parts.now) }
{
    for part in parts {
        part.put(into)?;
    }
    Ok(())
}

// Appends the parts, with commas between them.
pub fn put_list<T: Part>(parts: &[T], into: &mut Bytes) -> Result<(), AllocError>
    ensures text { OnOk result (into.new ≡ into.old ++ join_by T.canonical (codes ", ") parts.now) }
    ensures valid { OnOk result (All T.is_part parts.now) }
{
    match parts.split_first() {
        None => Ok(()),
        Some((first, rest)) => put_first_and_rest(first, rest, into),
    }
}

// Appends a part and the others, with commas between them.
pub fn put_first_and_rest<T: Part>(
    first: &T,
    rest: &[T],
    into: &mut Bytes,
) -> Result<(), AllocError>
    ensures text { OnOk result (into.new ≡ into.old ++ join_by T.canonical (codes ", ") (first.now ∷ rest.now)) }
    ensures valid { OnOk result (All T.is_part (first.now ∷ rest.now)) }
{
    first.put(into)?;
    for part in rest {
        into.add(b", ")?;
        part.put(into)?;
    }
    Ok(())
}
