// The pass.

ghost use Rattle.dead_code.specs.Dead.{dead_meaning};

use crate::edit::deadened;
use bril_checker::Checked;
use bril_profile::Profile;
use pass_make::{Edit, Edited, Made};
use std::alloc::{AllocError, Global};

/// The pass `dead`, as clauses see it by its tally. It puts `nop` for computations of what isn't live at the next point, and
/// for all but labels that no walk reaches, until none is left. Its factor is 1, and its bound the number of items. No number of a
/// program grows: its locations, its longest list of arguments, the depth of its open sites, its entries of labels, and the
/// labels that are entered from one leave point.
pub type Dead = Edited<DeadEdit>;

/// The edit of the pass `dead`.
pub struct DeadEdit;

impl Edit for DeadEdit {
    ghost meaning = { dead_meaning };

    fn is_named(name: &[u8]) -> bool {
        name == b"dead".as_slice()
    }

    fn bound(_alloc: Global, prog: &Checked, _profile: &Profile) -> Result<u64, AllocError> {
        Ok(prog.prog().size())
    }

    fn edit(alloc: Global, prog: &Checked, _profile: &Profile) -> Result<Made, AllocError> {
        Ok(Made::Tree(deadened(alloc, prog.prog())?))
    }
}
