// From the edit of one function to the tree of a program.

ghost use Rattle.std.specs.Prelude.{IfOk};
ghost use Rattle.bril_tree.specs.Accepted.{IsAccepted};
ghost use Rattle.bril_tree.specs.Size.{IsCounted};
ghost use Rattle.pass_make.specs.Each.{IsGivenFor, IsMadeOfEach, TakesEach};

use bril_names::function_of;
use bril_tree::function_tree::FuncTree;
use bril_tree::numbered_function::Func;
use bril_tree::program::Prog;
use bril_tree::sequence::Seq;
use bril_tree::tree::Tree;
use std::alloc::{AllocError, Global};

/// The tree of what the edit gives for each function of an accepted program, in their order. The edit is given the number of a
/// function, the function and its tree. The only error is out of memory, in the edit too.
pub fn each_function<E: Fn(u32, &Func, FuncTree) -> Result<FuncTree, AllocError>>(
    alloc: Global,
    prog: &Prog,
    edit: E,
) -> Result<Tree, AllocError>
    requires accepted { IsAccepted prog.now }
    requires counted { IsCounted prog.now }
    requires takes { TakesEach (E.pre edit) prog.now }
    ensures { IfOk result (IsMadeOfEach (IsGivenFor (E.post edit) prog.now) prog.now) }
{
    let mut funcs = Seq::new(alloc);
    for (number, func) in prog.funcs.as_slice().iter().enumerate() {
        let number = number as u32;
        let function = function_of(alloc, prog, number)?;
        funcs.push(edit(number, func, function)?)?;
    }
    Ok(Tree {
        imports: Seq::new(alloc),
        funcs,
    })
}
