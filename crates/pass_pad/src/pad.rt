// The pass.

ghost use Rattle.pass_pad.specs.Pad.{pad_meaning};
ghost use Rattle.pass_pad.specs.Plan.{padding, pad_plan};

use crate::edit::padded;
use bril_checker::Checked;
use bril_profile::Profile;
use pass_edit_laws::names::PlannedByNames;
use pass_edit_laws::plan::Planned;
use pass_make::{Edit, Edited, Made};
use std::alloc::{AllocError, Global};

/// The pass `pad`, as clauses see it by its tally. It puts one `nop` before item 0 of each function. Its factor is 2, and
/// its bound the number of items and of functions together.
pub type Pad = Edited<PadEdit>;

/// The edit of the pass `pad`.
pub struct PadEdit;

impl Planned for PadEdit {
    ghost plan = { pad_plan };
}

impl PlannedByNames for PadEdit {
    ghost names = { padding };
}

impl Edit for PadEdit {
    ghost meaning = { pad_meaning };

    fn is_named(name: &[u8]) -> bool {
        name == b"pad".as_slice()
    }

    fn bound(_alloc: Global, prog: &Checked, _profile: &Profile) -> Result<u64, AllocError> {
        let prog = prog.prog();
        Ok(prog.size() + prog.funcs.as_slice().len() as u64)
    }

    fn edit(alloc: Global, prog: &Checked, _profile: &Profile) -> Result<Made, AllocError> {
        Ok(Made::Tree(padded(alloc, prog.prog())?))
    }
}
