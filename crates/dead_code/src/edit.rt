// The edit of the tree.

ghost use Rattle.std.specs.Prelude.{◌≡◌, ◌<◌, ◌^◌, ◌-◌, IfOk, None, if◌then◌else◌, is_some, length};
ghost use Rattle.bril_tree.specs.Accepted.{IsAccepted};
ghost use Rattle.bril_tree.specs.Numbered.{nop_item};
ghost use Rattle.bril_tree.specs.Shape.{shape_fault_of};
ghost use Rattle.bril_tree.specs.Sites.{AreSitesSound};
ghost use Rattle.bril_tree.specs.Size.{IsCounted};
ghost use Rattle.dead_code.specs.Emptied.{IsClearedTree};
ghost use Rattle.dead_code.specs.Work.{IsEmptiedFunction};
ghost use Rattle.pass_edit_laws.specs.plan.Marked.{with_nops};

use crate::work::dead_items;
use bril_tree::function_tree::{FuncTree, Item};
use bril_tree::numbered_function::Func;
use bril_tree::program::Prog;
use bril_tree::sequence::Seq;
use bril_tree::tree::Tree;
use graph_search::is_marked;
use pass_make::{each_function, nop};
use std::alloc::{AllocError, Global};

// The program's tree with `nop` for removable items, until none is left.
pub(crate) fn deadened(alloc: Global, prog: &Prog) -> Result<Tree, AllocError>
    requires accepted { IsAccepted prog.now }
    requires counted { IsCounted prog.now }
    ensures { IfOk result (λ tree. IsClearedTree prog.now tree) }
{
    each_function(alloc, prog, |_number, func, function| {
        deadened_function(alloc, func, function)
    })
}

// The function of this tree with `nop` for removable items, until none is left.
fn deadened_function(alloc: Global, func: &Func, function: FuncTree) -> Result<FuncTree, AllocError>
    requires shaped { shape_fault_of (is_some func.now.ret) func.now.code ≡ None }
    requires sound { AreSitesSound func.now.code }
    requires few { length func.now.code < 2 ^ 32 - 1 }
    ensures { IfOk result (IsEmptiedFunction func.now function) }
{
    let dead = dead_items(alloc, func)?;
    emptied_function(alloc, function, dead.as_slice())
}

// The function with `nop` for its dead items.
fn emptied_function(
    alloc: Global,
    function: FuncTree,
    dead: &[bool],
) -> Result<FuncTree, AllocError>
    ensures { IfOk result (λ made. made ≡ record function { code = with_nops nop_item dead.now function.code }) }
{
    let mut code = Seq::new(alloc);
    let mut point = 0;
    for item in function.code.into_items() {
        code.push(emptied_item(alloc, item, is_marked(dead, point)))?;
        point += 1;
    }
    Ok(FuncTree { code, ..function })
}

// The item, or `nop` where it is dead.
fn emptied_item(alloc: Global, item: Item, dead: bool) -> Item
    ensures { result ≡ (if dead then nop_item else item) }
{
    if dead { nop(alloc) } else { item }
}
