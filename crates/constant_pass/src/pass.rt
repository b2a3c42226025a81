// The pass.

ghost use Rattle.constant_pass.specs.Const.{const_meaning};

use crate::edit::folded;
use bril_checker::Checked;
use bril_profile::Profile;
use pass_make::{Edit, Edited, Made};
use std::alloc::{AllocError, Global};

/// The pass `const`, as clauses see it by its tally. At the points that the table of constants of a function reaches it puts a
/// `const` for each item with a destination to which the item's row gives one int, bool or char; a `jmp` for each `br` whose
/// condition is known; and `nop` for each `guard` whose condition is known to be true. All else stays as it is. Its factor is
/// 1, and its bound the number of items. No number of a program grows: its locations, its longest list of arguments, the depth
/// of its open sites, its entries of labels, and the labels that are entered from one leave point.
pub type Const = Edited<ConstEdit>;

/// The edit of the pass `const`.
pub struct ConstEdit;

impl Edit for ConstEdit {
    ghost meaning = { const_meaning };

    fn is_named(name: &[u8]) -> bool {
        name == b"const".as_slice()
    }

    fn bound(_alloc: Global, prog: &Checked, _profile: &Profile) -> Result<u64, AllocError> {
        Ok(prog.prog().size())
    }

    fn edit(alloc: Global, prog: &Checked, _profile: &Profile) -> Result<Made, AllocError> {
        Ok(Made::Tree(folded(alloc, prog.prog())?))
    }
}
