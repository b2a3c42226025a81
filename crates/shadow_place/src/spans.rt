// Spans of points.

ghost use Rattle.std.specs.Prelude.{◌≡◌, ◌≤◌, ◌<◌, ◌^◌, length, IfOk};
ghost use Rattle.std.specs.List.{Contains};
ghost use Rattle.shadow_place.specs.Spans.{HaveSites, IsInside, IsSiteAt, Widens};

use flow_graph::Graph;
use std::alloc::{AllocError, Global};

// The points from a first one to a last one; none where the first is greater.
#[derive(Clone, Copy, PartialEq, Eq, Debug, Drop)]
pub(crate) struct Span {
    pub first: u32,
    pub last: u32,
}

// The span with one point more.
fn wider(span: Span, point: u32) -> Span
    ensures here { IsInside result point }
    ensures first { result.first ≤ span.first }
    ensures last { span.last ≤ result.last }
{
    Span {
        first: span.first.min(point),
        last: span.last.max(point),
    }
}

// So many spans that have no point.
pub(crate) fn no_spans(alloc: Global, count: usize) -> Result<Vec<Span>, AllocError>
    ensures { IfOk result (λ spans. length spans.items ≡ count) }
{
    let none = Span {
        first: u32::MAX,
        last: 0,
    };
    let mut spans = Vec::new(alloc);
    for _point in 0..count {
        spans.push(none)?;
    }
    Ok(spans)
}

// Adds a point to the span of this number, where there is one.
pub(crate) fn cover(spans: &mut Vec<Span>, number: usize, point: u32)
    ensures { Widens (λ n p. (n ≡ number) × (p ≡ point)) spans.old.items spans.new.items }
{
    if number < spans.len() {
        let span = spans[number];
        spans[number] = wider(span, point);
    }
}

// Adds a point to the spans of these numbers.
fn cover_all(spans: &mut Vec<Span>, numbers: &[u32], point: u32)
    ensures { Widens (λ n p. Contains numbers.now n × (p ≡ point)) spans.old.items spans.new.items }
{
    for number in numbers {
        cover(spans, *number as usize, point);
    }
}

// Adds the points of a span to the span of this number.
pub(crate) fn cover_span(spans: &mut Vec<Span>, number: usize, span: Span)
    ensures { Widens (λ n p. (n ≡ number) × IsInside span p) spans.old.items spans.new.items }
{
    cover(spans, number, span.first);
    cover(spans, number, span.last);
}

// Adds the point to the spans of the sites that are open there.
fn cover_sites(spans: &mut Vec<Span>, graph: &Graph, point: u32)
    requires { point < length graph.now.sites }
    ensures { Widens (IsSiteAt graph.now.sites point) spans.old.items spans.new.items }
{
    match graph.sites(point) {
        None => {}
        Some(sites) => cover_all(spans, sites, point),
    }
}

// For each of so many points a span that has the points where it is open as a site.
pub(crate) fn site_spans(
    alloc: Global,
    graph: &Graph,
    points: usize,
) -> Result<Vec<Span>, AllocError>
    requires points { length graph.now.sites ≡ points }
    requires few { points < 2 ^ 32 }
    ensures long { IfOk result (λ spans. length spans.items ≡ points) }
    ensures open { IfOk result (λ spans. HaveSites graph.now.sites points spans.items) }
{
    let mut spans = no_spans(alloc, points)?;
    for point in 0..points {
        cover_sites(&mut spans, graph, point as u32);
    }
    Ok(spans)
}
