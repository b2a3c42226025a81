// The pass.

ghost use Rattle.ssa_form_laws.specs.form.Ssa.{ssa_meaning};

use crate::bound::ssa_bound;
use bril_checker::Checked;
use bril_profile::Profile;
use pass_make::{Edit, Edited, Made};
use ssa_build::tree::ssa_tree;
use std::alloc::{AllocError, Global};

/// The pass `ssa`, as clauses see it by its tally. It brings a program into SSA form (Braun and others, "Simple and Efficient Construction
/// of Static Single Assignment Form", 2013): each variable has one item that assigns it, or is an argument and has none; where two ways
/// meet, a `get` stands behind the label, and `set`s where each way leaves for it. Beside these there are as many items as before. Its factor is
/// 1 + 2·X·(D + 1), where X is the most locations of a function and D the most labels to which edges go from one leave point; its bound
/// is the items and two for each leave point, label that is entered from it, and location that is live at the label.
pub type Ssa = Edited<SsaEdit>;

/// The edit of the pass `ssa`.
pub struct SsaEdit;

impl Edit for SsaEdit {
    ghost meaning = { ssa_meaning };

    fn is_named(name: &[u8]) -> bool {
        name == b"ssa".as_slice()
    }

    fn bound(alloc: Global, prog: &Checked, _profile: &Profile) -> Result<u64, AllocError> {
        ssa_bound(alloc, prog.prog())
    }

    fn edit(alloc: Global, prog: &Checked, _profile: &Profile) -> Result<Made, AllocError> {
        let tree = ssa_tree(alloc, prog.prog())?;
        Ok(Made::Tree(tree))
    }
}
