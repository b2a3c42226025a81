// The spans in which slots need their homes.

ghost use Rattle.std.specs.Prelude.{◌≡◌, ◌<◌, ◌≤◌, ◌+◌, ◌-◌, ◌^◌, ℕ, IsTrue, Some, length, slice_get, IfNone, IfOk, IfSome, OnOk};
ghost use Rattle.std.specs.List.{Contains};
ghost use Rattle.bril_tree.specs.Operand.{Location};
ghost use Rattle.bril_tree.specs.declared.edge.Edge.{Edge};
ghost use Rattle.flow_graph.specs.Location.{number_of};
ghost use Rattle.live_sets.specs.Liveness.{is_live};
ghost use Rattle.placement_laws.specs.Homes.{number_in};
ghost use Rattle.slot_code.specs.Flow.{slot_location};
ghost use Rattle.shadow_place.specs.Spans.{HaveNeeds, IsAssignedBy, IsCovered, IsInside, IsLiveSlot, IsOpenSlot, Widens, numbers_of};

use crate::marks::is_live_at;
use crate::spans::{Span, cover, cover_span, no_spans, site_spans};
use bril_tree::edge::Edge;
use bril_tree::numbered::Instr;
use bril_tree::numbered_function::Func;
use flow_graph::{Graph, point_number, shadow_number, variable_number};
use live_sets::Live;
use slot_code::{Slot, SlotFunction};
use std::alloc::{AllocError, Global};

// The number of a slot among the locations of a function.
fn location_number(slot: Slot) -> Result<u32, AllocError>
    ensures { IfOk result (λ number. number ≡ number_of (slot_location slot)) }
{
    match slot {
        Slot::Variable(x) => variable_number(x),
        Slot::Shadow(x) => shadow_number(x),
    }
}

// The numbers of these slots among the locations of a function.
fn location_numbers(alloc: Global, slots: &[Slot]) -> Result<Vec<u32>, AllocError>
    ensures { IfOk result (λ numbers. numbers.items ≡ numbers_of slots.now) }
{
    let mut numbers = Vec::new(alloc);
    for slot in slots {
        numbers.push(location_number(*slot)?)?;
    }
    Ok(numbers)
}

// The slot of the location of a number.
fn slot_of_number(lowered: &SlotFunction, number: u32) -> usize
    ensures { (x : Location) → number_of x ≡ number → result ≡ number_in lowered.now x }
{
    if number % 2 == 0 {
        return lowered.number(Slot::Variable(number / 2));
    }
    lowered.number(Slot::Shadow(number / 2))
}

// The span from the first to the last point where the location of a number is live, if there is one.
fn live_span(live: &Live, number: u32) -> Option<Span>
    ensures some { IfSome result (λ span. (x : Location) (point : ℕ) → number_of x ≡ number → IsTrue (is_live live.now x point) → IsInside span point) }
    ensures none { IfNone result ((x : Location) (point : ℕ) → number_of x ≡ number → IsTrue (is_live live.now x point) → ⊥) }
{
    let first = live.first(number)?;
    let last = live.last(number)?;
    Some(Span { first, last })
}

// Adds the points where the location of a number is live to its slot.
fn cover_live_slot(spans: &mut Vec<Span>, live: &Live, slot: usize, number: u32)
    ensures { Widens (λ s point. (s ≡ slot) × ((x : Location) × (number_of x ≡ number) × IsTrue (is_live live.now x point))) spans.old.items spans.new.items }
{
    match live_span(live, number) {
        None => {}
        Some(span) => cover_span(spans, slot, span),
    }
}

// Adds the points where slots are live, by the numbers of their locations.
fn cover_live(spans: &mut Vec<Span>, live: &Live, numbers: &[u32])
    ensures { Widens (λ slot point. IsLiveSlot live.now numbers.now point slot) spans.old.items spans.new.items }
{
    for slot in 0..numbers.len() {
        cover_live_slot(spans, live, slot, numbers[slot]);
    }
}

// Adds the points of a span, in which a site is open, to a slot whose location is live at the site.
fn cover_open_slot(
    spans: &mut Vec<Span>,
    live: &Live,
    slot: usize,
    number: u32,
    site: u32,
    span: Span,
)
    ensures { Widens (λ s point. (s ≡ slot) × ((x : Location) × (number_of x ≡ number) × IsTrue (is_live live.now x site)) × IsInside span point) spans.old.items spans.new.items }
{
    if is_live_at(live, number, site) {
        cover_span(spans, slot, span);
    }
}

// Adds the points of a span, in which a site is open, to the slots that are live at the site.
fn cover_open(spans: &mut Vec<Span>, live: &Live, numbers: &[u32], site: u32, span: Span)
    ensures { Widens (λ slot point. IsLiveSlot live.now numbers.now site slot × IsInside span point) spans.old.items spans.new.items }
{
    for slot in 0..numbers.len() {
        cover_open_slot(spans, live, slot, numbers[slot], site, span);
    }
}

// The same, where the span has a point.
fn cover_site(spans: &mut Vec<Span>, live: &Live, numbers: &[u32], site: u32, span: Span)
    ensures { Widens (λ slot point. IsLiveSlot live.now numbers.now site slot × IsInside span point) spans.old.items spans.new.items }
{
    if span.first <= span.last {
        cover_open(spans, live, numbers, site, span);
    }
}

// Adds the points in which sites are open to the slots that are live at them.
fn cover_sites(spans: &mut Vec<Span>, live: &Live, numbers: &[u32], sites: &[Span])
    requires { length sites.now ≤ 2 ^ 32 }
    ensures { Widens (IsOpenSlot live.now numbers.now sites.now (length sites.now)) spans.old.items spans.new.items }
{
    for site in 0..sites.len() {
        cover_site(spans, live, numbers, site as u32, sites[site]);
    }
}

// Adds the end of an edge to the slot that its item assigns.
fn cover_edge(
    spans: &mut Vec<Span>,
    lowered: &SlotFunction,
    code: &[Instr],
    edge: Edge,
) -> Result<(), AllocError>
    ensures { OnOk result (Widens (IsAssignedBy code.now lowered.now edge) spans.old.items spans.new.items) }
{
    if let Some(number) = point_number(code, edge.from)? {
        cover(spans, slot_of_number(lowered, number), edge.to);
    }
    Ok(())
}

// Adds the ends of edges to the slots that their items assign.
fn cover_edges(
    spans: &mut Vec<Span>,
    lowered: &SlotFunction,
    code: &[Instr],
    edges: &[Edge],
) -> Result<(), AllocError>
    ensures { OnOk result (Widens (λ slot point. (edge : Edge) × Contains edges.now edge × IsAssignedBy code.now lowered.now edge slot point) spans.old.items spans.new.items) }
{
    for edge in edges {
        cover_edge(spans, lowered, code, *edge)?;
    }
    Ok(())
}

// Adds the start to the arguments.
fn cover_arguments(spans: &mut Vec<Span>, args: u32)
    ensures { Widens (λ slot point. (slot < args) × (point ≡ 0)) spans.old.items spans.new.items }
{
    for k in 0..args {
        cover(spans, k as usize, 0);
    }
}

// The spans of the first of a function's slots.
pub(crate) fn slot_spans(
    alloc: Global,
    func: &Func,
    graph: &Graph,
    lowered: &SlotFunction,
    live: &Live,
    slots: &[Slot],
) -> Result<Vec<Span>, AllocError>
    requires points { length graph.now.sites ≡ length func.now.code + 1 }
    requires few { length func.now.code < 2 ^ 32 - 1 }
    ensures long { IfOk result (λ spans. length spans.items ≡ length slots.now) }
    ensures needs { IfOk result (λ spans. HaveNeeds func.now.code func.now.args lowered.now live.now (numbers_of slots.now) graph.now.edges graph.now.sites spans.items) }
{
    let code = func.code.as_slice();
    let numbers = location_numbers(alloc, slots)?;
    let sites = site_spans(alloc, graph, code.len() + 1)?;
    let mut spans = no_spans(alloc, slots.len())?;
    cover_live(&mut spans, live, numbers.as_slice());
    cover_sites(&mut spans, live, numbers.as_slice(), sites.as_slice());
    cover_edges(&mut spans, lowered, code, graph.edges())?;
    cover_arguments(&mut spans, func.args);
    Ok(spans)
}
