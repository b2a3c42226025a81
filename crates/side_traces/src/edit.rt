// The edit of the tree.

ghost use Rattle.std.specs.Prelude.{◌≡◌, ◌<◌, ◌-◌, ◌^◌, IfOk, None, is_some, length};
ghost use Rattle.bril_tree.specs.Accepted.{IsAccepted};
ghost use Rattle.bril_tree.specs.Shape.{shape_fault_of};
ghost use Rattle.bril_tree.specs.Sites.{AreSitesSound};
ghost use Rattle.bril_tree.specs.Size.{IsCounted};
ghost use Rattle.side_laws.specs.Sided.{IsSidedTree};
ghost use Rattle.side_traces.specs.Made.{HasPairsInside, IsSidedBy};

use crate::exits::Exits;
use crate::guards::retargeted;
use crate::rows::exit_rows;
use crate::sweep::with_rows;
use bril_tree::function_tree::FuncTree;
use bril_tree::numbered_function::Func;
use bril_tree::program::Prog;
use bril_tree::tree::Tree;
use pass_make::each_function;
use side_pairs::paired_guards;
use std::alloc::{AllocError, Global};

// The function of this tree with the side exits of its paired guards.
fn sided_function(alloc: Global, func: &Func, tree: FuncTree) -> Result<FuncTree, AllocError>
    requires shaped { shape_fault_of (is_some func.now.ret) func.now.code ≡ None }
    requires sound { AreSitesSound func.now.code }
    requires few { length func.now.code < 2 ^ 32 - 1 }
    requires tree { length tree.code ≡ length func.now.code }
    requires inside { HasPairsInside func.now }
    ensures { IfOk result (IsSidedBy func.now tree) }
{
    let pairs = paired_guards(alloc, func)?;
    if pairs.len() == 0 {
        return Ok(tree);
    }
    let exits = Exits::of(alloc, func, pairs)?;
    let rows = exit_rows(alloc, func, tree.code.as_slice(), &exits)?;
    let items = retargeted(alloc, tree.code, &exits)?;
    let code = with_rows(alloc, rows, items)?;
    Ok(FuncTree { code, ..tree })
}

/// The program's tree with a side exit for each paired guard. The only error is out of memory.
pub(crate) fn sided(alloc: Global, prog: &Prog) -> Result<Tree, AllocError>
    requires accepted { IsAccepted prog.now }
    requires counted { IsCounted prog.now }
    ensures { IfOk result (IsSidedTree prog.now) }
{
    each_function(alloc, prog, |_number, func, tree| {
        sided_function(alloc, func, tree)
    })
}
