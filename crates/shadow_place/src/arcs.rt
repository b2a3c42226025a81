// The arcs back between the points where a level is open, and the guards of a level.

ghost use Rattle.std.specs.Prelude.{◌≡◌, ◌==◌, ◌<◌, ◌≤◌, ◌↔◌, IsTrue, ℕ, length, filter, slice_index, IfOk, SomeIndex};
ghost use Rattle.flow_graph.specs.Graph.{edges_to};
ghost use Rattle.shadow_place.specs.Arcs.{guards_of, is_way_out, open_arcs_of, stays_open};

use bril_tree::edge::Edge;
use flow_graph::Graph;
use graph_search::Arc;
use std::alloc::{AllocError, Global};

// How many sites are open at a point.
pub(crate) fn depth_at(depths: &[usize], point: u32) -> usize
    ensures { result ≡ slice_index depths.now point }
{
    match depths.get(point as usize) {
        Some(depth) => *depth,
        None => 0,
    }
}

// Whether so many sites are open at some point.
pub(crate) fn is_reached(depths: &[usize], level: usize) -> bool
    ensures { IsTrue result ↔ SomeIndex depths.now (λ k. level ≤ slice_index depths.now k) }
{
    depths.iter().any(|depth| *depth >= level)
}

// The arcs back of the edges at both ends of which so many sites are open.
pub(crate) fn open_arcs(
    alloc: Global,
    edges: &[Edge],
    depths: &[usize],
    level: usize,
) -> Result<Vec<Arc>, AllocError>
    ensures { IfOk result (λ arcs. arcs.items ≡ open_arcs_of depths.now level edges.now) }
{
    let mut arcs = Vec::new(alloc);
    for edge in edges {
        if level <= depth_at(depths, edge.from) && level <= depth_at(depths, edge.to) {
            arcs.push(Arc {
                from: edge.to,
                to: edge.from,
                label: None,
            })?;
        }
    }
    Ok(arcs)
}

// The guards of the level among the items of these edges that abort along them.
fn guards_of(
    alloc: Global,
    edges: &[Edge],
    depths: &[usize],
    level: usize,
) -> Result<Vec<u32>, AllocError>
    ensures { IfOk result (λ guards. guards.items ≡ guards_of depths.now level edges.now) }
{
    let mut guards = Vec::new(alloc);
    for edge in edges {
        if edge.leave != edge.from && depth_at(depths, edge.from) == level {
            guards.push(edge.from)?;
        }
    }
    Ok(guards)
}

// The guards of the level that abort to the label.
pub(crate) fn guards_to(
    alloc: Global,
    graph: &Graph,
    depths: &[usize],
    level: usize,
    label: u32,
) -> Result<Vec<u32>, AllocError>
    requires { label < length graph.now.sites }
    ensures { IfOk result (λ guards. guards.items ≡ guards_of depths.now level (edges_to label graph.now.edges)) }
{
    guards_of(alloc, graph.preds(label), depths, level)
}
