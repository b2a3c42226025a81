// The edit of the tree.

ghost use Rattle.std.specs.Prelude.{◌≡◌, ◌<◌, ◌^◌, ◌-◌, None, IfOk, is_some, length};
ghost use Rattle.bril_tree.specs.Accepted.{IsAccepted};
ghost use Rattle.bril_tree.specs.Size.{IsCounted};
ghost use Rattle.bril_tree.specs.Shape.{shape_fault_of};
ghost use Rattle.constant_pass.specs.constants.Kept.{told};
ghost use Rattle.constant_pass.specs.Edit.{IsMadeByTable, IsMadeFunction};
ghost use Rattle.constant_pass.specs.Folded.{IsFoldedTree};

use crate::constants::{ConstTable, table_in};
use crate::item::made_item;
use bril_tree::function_tree::FuncTree;
use bril_tree::numbered_function::Func;
use bril_tree::program::Prog;
use bril_tree::sequence::Seq;
use bril_tree::tree::Tree;
use pass_make::each_function;
use std::alloc::{AllocError, Global};

// The program's tree with what the tables tell written out.
pub(crate) fn folded(alloc: Global, prog: &Prog) -> Result<Tree, AllocError>
    requires accepted { IsAccepted prog.now }
    requires counted { IsCounted prog.now }
    ensures { IfOk result (λ tree. IsFoldedTree prog.now tree) }
{
    each_function(alloc, prog, |_number, func, function| {
        folded_function(alloc, func, function)
    })
}

// The function of this tree with what its table tells written out.
fn folded_function(alloc: Global, func: &Func, function: FuncTree) -> Result<FuncTree, AllocError>
    requires shaped { shape_fault_of (is_some func.now.ret) func.now.code ≡ None }
    requires few { length func.now.code < 2 ^ 32 - 1 }
    requires tree { length function.code ≡ length func.now.code }
    ensures { IfOk result (IsMadeByTable func.now function) }
{
    let table = table_in(alloc, func)?;
    folded_by(alloc, func, function, &table)
}

// The function with what the table tells written out.
fn folded_by(
    alloc: Global,
    func: &Func,
    function: FuncTree,
    table: &ConstTable,
) -> Result<FuncTree, AllocError>
    requires shaped { shape_fault_of (is_some func.now.ret) func.now.code ≡ None }
    requires few { length func.now.code < 2 ^ 32 - 1 }
    requires tree { length function.code ≡ length func.now.code }
    ensures { IfOk result (λ made. IsMadeFunction func.now (told table.now) function made) }
{
    let mut code = Seq::new(alloc);
    let mut point = 0;
    for item in function.code.into_items() {
        let made = made_item(alloc, func, table, point, item)?;
        code.push(made)?;
        point += 1;
    }
    Ok(FuncTree { code, ..function })
}
