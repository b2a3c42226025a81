// The pass.

ghost use Rattle.ssa_exit.specs.Unssa.{unssa_meaning};

use crate::edit::unssaed;
use bril_checker::Checked;
use bril_profile::Profile;
use pass_make::{Edit, Edited, Made};
use std::alloc::{AllocError, Global};

/// The pass `unssa`, as clauses see it by its tally. Each shadow becomes a variable of a fresh name, and each `get` and `set`
/// an `id`; a `get` whose shadow no `set` writes becomes `undef`, and a `set` of a variable without a type `nop`. No `get` and
/// no `set` is left. Its factor is 1, and its bound the number of items. No number of a program grows: its locations, its
/// longest list of arguments, the depth of its open sites, its entries of labels, and the labels that are entered from one
/// leave point.
pub type Unssa = Edited<UnssaEdit>;

/// The edit of the pass `unssa`.
pub struct UnssaEdit;

impl Edit for UnssaEdit {
    ghost meaning = { unssa_meaning };

    fn is_named(name: &[u8]) -> bool {
        name == b"unssa".as_slice()
    }

    fn bound(_alloc: Global, prog: &Checked, _profile: &Profile) -> Result<u64, AllocError> {
        Ok(prog.prog().size())
    }

    fn edit(alloc: Global, prog: &Checked, _profile: &Profile) -> Result<Made, AllocError> {
        Ok(Made::Tree(unssaed(alloc, prog.prog())?))
    }
}
