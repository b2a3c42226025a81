// Clashes of the variables that copies relate: one is assigned while the other is live.

ghost use Rattle.std.specs.Prelude.{◌≡◌, ◌<◌, ◌≤◌, ◌+◌, ◌^◌, ℕ, true, IfOk, OnOk, length};
ghost use Rattle.std.specs.List.{All, Contains};
ghost use Rattle.bril_tree.specs.Live.{IsLive};
ghost use Rattle.bril_tree.specs.Operand.{Variable};
ghost use Rattle.flow_graph.specs.Graph.{IsGraphOf};
ghost use Rattle.live_sets.specs.Flow.{IsFlowOf};
ghost use Rattle.graph_search.specs.Marks.{is_marked};
ghost use Rattle.coalesce.specs.Classes.{AddsClashes, AreClashes};

use graph_search::{Reached, is_marked};
use live_sets::Flow;
use std::alloc::{AllocError, Global};
use variable_renaming::{Related, clashing, search};

/// An item, and two variables: it assigns one while the other is live.
#[derive(Clone, Copy, PartialEq, Eq, Debug, Drop)]
pub struct Clash {
    pub item: u32,
    pub one: u32,
    pub other: u32,
}

// Adds the clash of the item before the point with x, which is live there, both ways round.
fn push_clash(
    list: &mut Vec<Clash>,
    related: Related<'_>,
    x: u32,
    point: u32,
) -> Result<(), AllocError>
    requires graph { IsGraphOf related.func.now.code related.graph.now }
    requires point { point < length related.func.now.code + 1 }
    requires live { IsLive related.func.now.code (Variable x) point }
    ensures { OnOk result (AddsClashes related.entry.func.now.code related.entry.marks.now x (λ p. p ≡ point) list.old.items list.new.items) }
{
    match clashing(related, x, point) {
        None => Ok(()),
        Some(dest) => {
            let item = point - 1;
            list.push(Clash {
                item,
                one: x,
                other: dest,
            })?;
            list.push(Clash {
                item,
                one: dest,
                other: x,
            })?;
            Ok(())
        }
    }
}

// Adds the clashes of items with x, which is live at these points.
fn push_clashes(
    list: &mut Vec<Clash>,
    related: Related<'_>,
    x: u32,
    points: &[u32],
) -> Result<(), AllocError>
    requires graph { IsGraphOf related.func.now.code related.graph.now }
    requires points { All (λ point. point < length related.func.now.code + 1) points.now }
    requires live { (point : ℕ) → Contains points.now point → IsLive related.func.now.code (Variable x) point }
    ensures { OnOk result (AddsClashes related.entry.func.now.code related.entry.marks.now x (Contains points.now) list.old.items list.new.items) }
{
    for point in points {
        push_clash(list, related, x, *point)?;
    }
    Ok(())
}

// Adds the clashes with x, where it is marked.
fn push_variable(
    alloc: Global,
    list: &mut Vec<Clash>,
    related: Related<'_>,
    flow: &Flow,
    reached: &mut Reached,
    x: u32,
) -> Result<(), AllocError>
    requires graph { IsGraphOf related.func.now.code related.graph.now }
    requires points { reached.old.nodes ≡ flow.now.points }
    requires flow { IsFlowOf related.func.now.code flow.now }
    ensures points { reached.new.nodes ≡ reached.old.nodes }
    ensures adds { OnOk result (AddsClashes related.entry.func.now.code related.entry.marks.now x (λ p. (is_marked related.entry.marks.now x ≡ true) × IsLive related.entry.func.now.code (Variable x) p) list.old.items list.new.items) }
{
    if is_marked(related.marks, x as usize) {
        search(alloc, related.func, flow, reached, x)?;
        push_clashes(list, related, x, reached.found())?;
    }
    Ok(())
}

// The clashes of related variables.
pub(crate) fn clashes_of(
    alloc: Global,
    related: Related<'_>,
    flow: &Flow,
) -> Result<Vec<Clash>, AllocError>
    requires graph { IsGraphOf related.func.now.code related.graph.now }
    requires flow { IsFlowOf related.func.now.code flow.now }
    requires few { length related.marks.now ≤ 2 ^ 32 }
    ensures { IfOk result (λ list. AreClashes related.entry.func.now.code related.entry.marks.now list.items) }
{
    let mut reached = Reached::new(alloc, flow.points())?;
    let mut list = Vec::new(alloc);
    for x in 0..related.marks.len() {
        push_variable(alloc, &mut list, related, flow, &mut reached, x as u32)?;
    }
    Ok(list)
}
