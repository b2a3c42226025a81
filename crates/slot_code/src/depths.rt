// How many speculations are open at each point of a function, and which is the newest of them.

ghost use Rattle.std.specs.Prelude.{◌≡◌, ◌+◌, ◌<◌, ◌^◌, None, Some, length, map, option_map, slice_get, IfOk};
ghost use Rattle.flow_graph.specs.Graph.{IsGraphOf};
ghost use Rattle.slot_code.specs.Lowered.{AreDepths, AreNewestSites, newest_open, open_count};

use bril_tree::numbered_function::Func;
use bril_tree::sequence::Seq;
use flow_graph::Graph;
use std::alloc::{AllocError, Global};

// How many speculations are open at each point of a function, by its graph.
pub fn depths_of(alloc: Global, func: &Func, graph: &Graph) -> Result<Seq<usize>, AllocError>
    requires graph { IsGraphOf func.now.code graph.now }
    requires few { length func.now.code + 1 < 2 ^ 32 }
    ensures { IfOk result (λ depths. AreDepths func.now.code depths) }
{
    depths_in(alloc, graph, func.code.as_slice().len() + 1)
}

// The newest open `speculate` at each point of a function, by its graph.
pub fn newest_of(alloc: Global, func: &Func, graph: &Graph) -> Result<Seq<u32>, AllocError>
    requires graph { IsGraphOf func.now.code graph.now }
    requires few { length func.now.code + 1 < 2 ^ 32 }
    ensures { IfOk result (λ newest. AreNewestSites func.now.code newest) }
{
    newest_in(alloc, graph, func.code.as_slice().len() + 1)
}

// How many speculations are open at each of the points of a graph.
fn depths_in(alloc: Global, graph: &Graph, points: usize) -> Result<Seq<usize>, AllocError>
    requires points { length graph.now.sites ≡ points }
    requires few { points < 2 ^ 32 }
    ensures { IfOk result (λ depths. depths ≡ map open_count graph.now.sites) }
{
    let mut depths = Seq::new(alloc);
    for point in 0..points {
        depths.push(open_count(graph, point as u32))?;
    }
    Ok(depths)
}

// The newest open `speculate` at each of the points of a graph.
fn newest_in(alloc: Global, graph: &Graph, points: usize) -> Result<Seq<u32>, AllocError>
    requires points { length graph.now.sites ≡ points }
    requires few { points < 2 ^ 32 }
    ensures { IfOk result (λ newest. newest ≡ map newest_open graph.now.sites) }
{
    let mut newest = Seq::new(alloc);
    for point in 0..points {
        newest.push(newest_open(graph, point as u32))?;
    }
    Ok(newest)
}

// How many speculations are open at a point, none where no walk leads.
fn open_count(graph: &Graph, point: u32) -> usize
    requires { point < length graph.now.sites }
    ensures { Some result ≡ option_map open_count (slice_get graph.now.sites point) }
{
    match graph.sites(point) {
        None => 0,
        Some(sites) => sites.len(),
    }
}

// The newest open `speculate` at a point, 0 where none is open.
fn newest_open(graph: &Graph, point: u32) -> u32
    requires { point < length graph.now.sites }
    ensures { Some result ≡ option_map newest_open (slice_get graph.now.sites point) }
{
    match graph.sites(point) {
        None => 0,
        Some(sites) => match sites.first() {
            None => 0,
            Some(newest) => *newest,
        },
    }
}
