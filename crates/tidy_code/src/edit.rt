// The edit of the tree.

ghost use Rattle.std.specs.Prelude.{◌≡◌, ◌≤◌, ◌<◌, ◌^◌, ◌-◌, ◌↔◌, ◌++◌, ◌∷◌, [], IfOk, OnOk, IsTrue, is_some, if◌then◌else◌, length, slice_get, Some, None};
ghost use Rattle.bril_tree.specs.Accepted.{IsAccepted};
ghost use Rattle.bril_tree.specs.Numbered.{nop_item};
ghost use Rattle.bril_tree.specs.Shape.{shape_fault_of};
ghost use Rattle.bril_tree.specs.Sites.{AreSitesSound};
ghost use Rattle.bril_tree.specs.Size.{IsCounted};
ghost use Rattle.flow_graph.specs.Graph.{IsGraphOf};
ghost use Rattle.tidy_code.specs.Tidied.{IsStaying, IsTidiedFunction, IsTidiedTree};

use bril_tree::function_tree::{FuncTree, Item};
use bril_tree::numbered_function::Func;
use bril_tree::operation::Op;
use bril_tree::program::Prog;
use bril_tree::sequence::Seq;
use bril_tree::tree::Tree;
use flow_graph::Graph;
use pass_make::each_function;
use std::alloc::{AllocError, Global};

// The program's tree with what stays of each function.
pub(crate) fn tidied(alloc: Global, prog: &Prog) -> Result<Tree, AllocError>
    requires accepted { IsAccepted prog.now }
    requires counted { IsCounted prog.now }
    ensures { IfOk result (λ tree. IsTidiedTree prog.now tree) }
{
    each_function(alloc, prog, |_number, func, function| {
        tidied_function(alloc, func, function)
    })
}

// What stays of a function, whose tree this is.
fn tidied_function(alloc: Global, func: &Func, function: FuncTree) -> Result<FuncTree, AllocError>
    requires shaped { shape_fault_of (is_some func.now.ret) func.now.code ≡ None }
    requires sound { AreSitesSound func.now.code }
    requires few { length func.now.code < 2 ^ 32 - 1 }
    requires tree { length function.code ≡ length func.now.code }
    ensures { IfOk result (λ made. IsTidiedFunction func.now.code function made) }
{
    let graph = Graph::of_sound(alloc, func)?;
    let mut code = Seq::new(alloc);
    let mut point = 0;
    for item in function.code.into_items() {
        let staying = stays(func, &graph, point, &item);
        push_if(&mut code, item, staying)?;
        point += 1;
    }
    Ok(FuncTree { code, ..function })
}

// Adds the item where it stays.
fn push_if(code: &mut Seq<Item>, item: Item, staying: bool) -> Result<(), AllocError>
    ensures { OnOk result (code.new ≡ (if staying then code.old ++ item ∷ [] else code.old)) }
{
    if staying {
        code.push(item)?;
    }
    Ok(())
}

// Whether the item at the point of the function stays.
fn stays(_func: &Func, graph: &Graph, point: u32, item: &Item) -> bool
    requires graph { IsGraphOf _func.now.code graph.now }
    requires point { point < length graph.now.sites }
    ensures { IsTrue result ↔ IsStaying _func.now.code point item.now }
{
    graph.reach(point) && !is_nop(item)
}

// Whether the item is a `nop`.
fn is_nop(item: &Item) -> bool
    ensures { IsTrue result ↔ (item.now ≡ nop_item) }
{
    match item {
        Item::Act {
            dest: None,
            op: Op::Nop,
            args,
            funcs,
            labels,
        } => {
            args.as_slice().is_empty()
                && funcs.as_slice().is_empty()
                && labels.as_slice().is_empty()
        }
        _ => false,
    }
}
