// Which variables clash: one is assigned while the other is live.

ghost use Rattle.std.specs.Prelude.{◌≡◌, ◌↔◌, ◌<◌, ◌≤◌, ◌+◌, ℕ, suc, true, false, Some, OnOk, IfSome, IfNone, length};
ghost use Rattle.std.specs.List.{All, Contains};
ghost use Rattle.bril_tree.specs.Live.{IsLive};
ghost use Rattle.bril_tree.specs.Operand.{Variable};
ghost use Rattle.flow_graph.specs.Graph.{IsGraphOf};
ghost use Rattle.live_sets.specs.Flow.{IsFlowOf};
ghost use Rattle.graph_search.specs.Marks.{is_marked};
ghost use Rattle.variable_renaming.specs.Apart.{source_of};
ghost use Rattle.variable_renaming.specs.Clashes.{Clashes};

use crate::copies::{dest_of, source_of};
use bril_tree::numbered::Instr;
use bril_tree::numbered_function::Func;
use flow_graph::{Graph, variable_number};
use graph_search::{Reached, is_marked};
use live_sets::Flow;
use std::alloc::{AllocError, Global};

/// A function, its graph, and a mark for each variable whose clashes are looked for.
#[derive(Clone, Copy, Drop)]
pub struct Related<'a> {
    pub func: &'a Func,
    pub graph: &'a Graph,
    pub marks: &'a [bool],
}

/// Finds the points at which the variable is live; what was found before is forgotten. Takes time in proportion to the points
/// that are found and the branches to them, and to the items that read the variable. The only error is out of memory, after which
/// nothing is told of what was found.
pub fn search(
    alloc: Global,
    _func: &Func,
    flow: &Flow,
    reached: &mut Reached,
    x: u32,
) -> Result<(), AllocError>
    requires points { reached.old.nodes ≡ flow.now.points }
    requires flow { IsFlowOf _func.now.code flow.now }
    ensures points { reached.new.nodes ≡ reached.old.nodes }
    ensures within { OnOk result (All (λ point. point < length _func.now.code + 1) reached.new.found) }
    ensures found { OnOk result ((point : ℕ) → Contains reached.new.found point ↔ IsLive _func.now.code (Variable x) point) }
{
    let location = variable_number(x)?;
    flow.search_live(alloc, reached, location)?;
    Ok(())
}

// Whether the item copies x.
fn is_copy_of(item: &Instr, x: u32) -> bool
    ensures copies { result ≡ true → source_of item.now ≡ Some x }
    ensures other { result ≡ false → source_of item.now ≡ Some x → ⊥ }
{
    match source_of(item) {
        None => false,
        Some(source) => source == x,
    }
}

/// The variable that the item before the point assigns, where it is marked and clashes with x, which is live at the point.
pub fn clashing(related: Related<'_>, x: u32, point: u32) -> Option<u32>
    requires graph { IsGraphOf related.func.now.code related.graph.now }
    requires point { point < length related.func.now.code + 1 }
    requires live { IsLive related.func.now.code (Variable x) point }
    ensures some { IfSome result (λ dest. (item : ℕ) → suc item ≡ point → Clashes related.entry.func.now.code item dest x) }
    ensures after { IfSome result (λ dest. 1 ≤ point) }
    ensures alone { IfSome result (λ dest. (item y : ℕ) → suc item ≡ point → Clashes related.entry.func.now.code item y x → y ≡ dest) }
    ensures none { IfNone result ((item y : ℕ) → suc item ≡ point → is_marked related.entry.marks.now y ≡ true → Clashes related.entry.func.now.code item y x → ⊥) }
{
    if point == 0 || !related.graph.reach(point - 1) {
        return None;
    }
    let item = &related.func.code.as_slice()[point as usize - 1];
    let dest = dest_of(item)?;
    if dest == x || is_copy_of(item, x) || !is_marked(related.marks, dest as usize) {
        return None;
    }
    Some(dest)
}
