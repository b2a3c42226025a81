// The tree of a program in SSA form.

ghost use Rattle.std.specs.Prelude.{IfOk};
ghost use Rattle.bril_tree.specs.Accepted.{IsAccepted};
ghost use Rattle.bril_tree.specs.Size.{IsCounted};
ghost use Rattle.ssa_build.specs.tree.Made.{IsLaidTree};

use crate::tree::function::laid_function;
use bril_tree::program::Prog;
use bril_tree::tree::Tree;
use pass_make::each_function;
use std::alloc::{AllocError, Global};

/// The tree of an accepted program in SSA form: each function is laid out. Takes time and memory in proportion to the items, the
/// wanted `get`s and what they are set from. The only error is out of memory.
pub fn ssa_tree(alloc: Global, prog: &Prog) -> Result<Tree, AllocError>
    requires accepted { IsAccepted prog.now }
    requires counted { IsCounted prog.now }
    ensures { IfOk result (λ tree. IsLaidTree prog.now tree) }
{
    each_function(alloc, prog, |_number, func, function| {
        laid_function(alloc, func, function)
    })
}
