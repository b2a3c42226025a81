// The pass.

ghost use Rattle.variable_coloring.specs.Color.{color_meaning};
ghost use Rattle.variable_coloring.specs.Colors.{AreColors};

use crate::colors::colors_in;
use bril_checker::Checked;
use bril_profile::Profile;
use bril_tree::numbered_function::Func;
use flow_graph::Graph;
use pass_make::{Edit, Edited, Made};
use std::alloc::{AllocError, Global};
use variable_renaming::{Renaming, renamed_tree};

/// The pass `color`, as clauses see it by its tally. In each function it gives one name to variables of one type that are apart
/// pairwise, until no two names could be one, and puts `nop` for each reachable copy of a variable onto itself. Arguments keep
/// their names. No number of the program grows. Its factor is 1, and its bound the number of items.
pub type Color = Edited<ColorEdit>;

/// The edit of the pass `color`.
pub struct ColorEdit;

impl Edit for ColorEdit {
    ghost meaning = { color_meaning };

    fn is_named(name: &[u8]) -> bool {
        name == b"color".as_slice()
    }

    fn bound(_alloc: Global, prog: &Checked, _profile: &Profile) -> Result<u64, AllocError> {
        Ok(prog.prog().size())
    }

    fn edit(alloc: Global, prog: &Checked, _profile: &Profile) -> Result<Made, AllocError> {
        Ok(Made::Tree(renamed_tree::<Colors>(alloc, prog.prog())?))
    }
}

// The classes that the pass finds.
struct Colors;

impl Renaming for Colors {
    ghost knows = { AreColors };

    fn classes(alloc: Global, func: &Func, graph: &Graph) -> Result<Vec<u32>, AllocError> {
        colors_in(alloc, func, graph)
    }
}
