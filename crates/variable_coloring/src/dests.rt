// What the item before each point assigns.

ghost use Rattle.std.specs.Prelude.{◌≡◌, ◌<◌, ◌+◌, ◌^◌, ◌-◌, ℕ, Some, IfOk, length, slice_get};
ghost use Rattle.flow_graph.specs.Graph.{IsGraphOf};
ghost use Rattle.variable_coloring.specs.Pairs.{AreDests};
ghost use Rattle.variable_renaming.specs.Clashes.{Clashes};

use bril_tree::numbered::Instr;
use bril_tree::numbered_function::Func;
use flow_graph::Graph;
use std::alloc::{AllocError, Global};
use variable_renaming::dest_of;

// The variable that the item at a point assigns, where a walk leads there.
fn reached_dest(_func: &Func, graph: &Graph, item: &Instr, point: u32) -> Option<u32>
    requires graph { IsGraphOf _func.now.code graph.now }
    requires point { point < length _func.now.code }
    requires here { slice_get _func.now.code point ≡ Some item.now }
    ensures { (y x : ℕ) → Clashes _func.now.code point y x → result ≡ Some y }
{
    if !graph.reach(point) {
        return None;
    }
    dest_of(item)
}

// For each point the variable that the item before it assigns, where a walk leads to this.
pub(crate) fn dests_in(
    alloc: Global,
    func: &Func,
    graph: &Graph,
) -> Result<Vec<Option<u32>>, AllocError>
    requires few { length func.now.code < 2 ^ 32 - 1 }
    requires graph { IsGraphOf func.now.code graph.now }
    ensures { IfOk result (λ dests. AreDests func.now.code dests.items) }
{
    let mut dests = Vec::new(alloc);
    dests.push(None)?;
    for (point, item) in func.code.as_slice().iter().enumerate() {
        dests.push(reached_dest(func, graph, item, point as u32))?;
    }
    Ok(dests)
}
