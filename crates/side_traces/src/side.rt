// The pass.

ghost use Rattle.side_laws.specs.Side.{side_meaning};

use crate::bound::side_bound;
use crate::edit::sided;
use bril_checker::Checked;
use bril_profile::Profile;
use pass_make::{Edit, Edited, Made};
use side_laws::{side_exits_link, side_has_numbers};
use std::alloc::{AllocError, Global};

/// The pass `side`, as clauses see it by its tally. A guard of a trace that is paired with a branch behind the label where the trace
/// is given up names a label of its own: a side exit, which stands just before that label, makes the items that are kept before the
/// guard, and jumps to where the branch goes once the guard has failed. Its factor is 1, and its bound the number of items and, for
/// each paired guard, its kept items and two. A program's locations, its longest list of arguments and the depth of its open sites
/// don't grow; its entries of labels grow by two at most for each paired guard, and the labels that are entered from one leave point
/// by no more than there are such guards.
pub type Side = Edited<SideEdit>;

/// The edit of the pass `side`.
pub struct SideEdit;

impl Edit for SideEdit {
    ghost meaning = { side_meaning };

    fn is_named(name: &[u8]) -> bool {
        name == b"side".as_slice()
    }

    fn bound(alloc: Global, prog: &Checked, _profile: &Profile) -> Result<u64, AllocError> {
        side_has_numbers();
        side_bound(alloc, prog.prog())
    }

    fn edit(alloc: Global, prog: &Checked, _profile: &Profile) -> Result<Made, AllocError> {
        side_exits_link();
        Ok(Made::Tree(sided(alloc, prog.prog())?))
    }
}
