// The edit of the tree.

ghost use Rattle.std.specs.Prelude.{◌≡◌, IfOk};
ghost use Rattle.bril_tree.specs.Accepted.{IsAccepted};
ghost use Rattle.bril_tree.specs.Numbered.{tree_of};
ghost use Rattle.bril_tree.specs.Size.{IsCounted};
ghost use Rattle.pass_pad.specs.Padded.{padded_function, padded_tree};

use bril_tree::function_tree::FuncTree;
use bril_tree::program::Prog;
use bril_tree::sequence::Seq;
use bril_tree::tree::Tree;
use pass_make::{each_function, nop};
use std::alloc::{AllocError, Global};

// The program's tree with one `nop` more before item 0 of each function.
pub(crate) fn padded(alloc: Global, prog: &Prog) -> Result<Tree, AllocError>
    requires accepted { IsAccepted prog.now }
    requires counted { IsCounted prog.now }
    ensures { IfOk result (λ made. made ≡ padded_tree (tree_of prog.now)) }
{
    each_function(alloc, prog, |_number, _func, function| {
        padded_function(alloc, function)
    })
}

// The function with one `nop` more.
fn padded_function(alloc: Global, func: FuncTree) -> Result<FuncTree, AllocError>
    ensures { IfOk result (λ made. made ≡ padded_function func) }
{
    let mut code = Seq::new(alloc);
    code.push(nop(alloc))?;
    for item in func.code.into_items() {
        code.push(item)?;
    }
    Ok(FuncTree { code, ..func })
}
