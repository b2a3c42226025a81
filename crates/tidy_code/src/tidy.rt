// The pass.

ghost use Rattle.tidy_code.specs.Tidy.{tidy_meaning};

use crate::edit::tidied;
use bril_checker::Checked;
use bril_profile::Profile;
use pass_make::{Edit, Edited, Made};
use std::alloc::{AllocError, Global};

/// The pass `tidy`, as clauses see it by its tally. It drops every `nop` and every item that no walk reaches, and keeps
/// the order of the others. Its factor is 1, and its bound the number of items. No number of a program grows: its locations, its
/// longest list of arguments, the depth of its open sites, its entries of labels, and but for one more the labels that are
/// entered from one leave point.
pub type Tidy = Edited<TidyEdit>;

/// The edit of the pass `tidy`.
pub struct TidyEdit;

impl Edit for TidyEdit {
    ghost meaning = { tidy_meaning };

    fn is_named(name: &[u8]) -> bool {
        name == b"tidy".as_slice()
    }

    fn bound(_alloc: Global, prog: &Checked, _profile: &Profile) -> Result<u64, AllocError> {
        Ok(prog.prog().size())
    }

    fn edit(alloc: Global, prog: &Checked, _profile: &Profile) -> Result<Made, AllocError> {
        Ok(Made::Tree(tidied(alloc, prog.prog())?))
    }
}
