// The reads of a function, and the arcs along which its variables are live.

ghost use Rattle.std.specs.Prelude.{◌≡◌, ◌<◌, map};
ghost use Rattle.std.specs.List.{All};
ghost use Rattle.definite_assignment.specs.Window.{windowed};
ghost use Rattle.graph_search.specs.Path.{IsBetween};

use crate::arcs::edge_arcs;
use crate::windows::{seed_of, windowed};
use bril_tree::numbered_function::Func;
use flow_graph::{Access, AccessLists, Graph, all_reads};
use graph_search::{ArcGraph, Seed, number_of_length};
use std::alloc::{AllocError, Global};

// The reads of a function, their indices in rows by the windows of what they read, and the arcs along which variables are live
// at reached points.
#[derive(Drop)]
pub(crate) struct LiveFlow {
    pub reads: Vec<Access>,
    pub rows: AccessLists,
    pub arcs: ArcGraph,
    ghost rows_are: { rows.list ≡ map windowed reads.items },
    ghost items: { All (λ read. read.item < arcs.nodes) reads.items },
    ghost between: { All (IsBetween arcs.nodes) arcs.arcs },
}

impl LiveFlow {
    ghost use Rattle.std.specs.Prelude.{◌^◌, ◌-◌, length, IfOk};
    ghost use Rattle.bril_tree.specs.Sites.{AreSitesSound};
    ghost use Rattle.flow_graph.specs.Accesses.{locations_of};
    ghost use Rattle.flow_graph.specs.Graph.{IsGraphOf};
    ghost use Rattle.graph_search.specs.Adjacency.{EndsRow};
    ghost use Rattle.variable_coloring.specs.LiveWords.{AreOfItems, AreSeeds};

    // The reads and the arcs of a function. As many as 2^32 - 1 of either are taken to need more memory than there is.
    pub(crate) fn of(alloc: Global, func: &Func, graph: &Graph) -> Result<LiveFlow, AllocError>
        requires few { length func.now.code < 2 ^ 32 - 1 }
        requires graph { IsGraphOf func.now.code graph.now }
        requires sound { AreSitesSound func.now.code }
        ensures { IfOk result (λ flow. AreOfItems func.now.code flow.reads.items flow.arcs) }
    {
        let code = func.code.as_slice();
        let reads = all_reads(alloc, code)?;
        let arcs = edge_arcs(alloc, code, graph.edges())?;
        number_of_length(reads.len())?;
        number_of_length(arcs.len())?;
        let nodes = code.len() + 1;
        let arcs = ArcGraph::of(alloc, nodes, arcs)?;
        let rows = AccessLists::of(alloc, windowed(alloc, reads.as_slice())?)?;
        Ok(LiveFlow { reads, rows, arcs })
    }

    // The end of a window's row, 0 where it has none.
    fn end(&self, window: u32) -> u32
        ensures { EndsRow (locations_of self.now.rows.list) window (length self.now.rows.list) result }
    {
        if window as usize >= self.rows.locations() {
            return 0;
        }
        self.rows.end(window)
    }

    // A seed for each read of the window's locations, the last read first.
    pub(crate) fn seeds(&self, alloc: Global, window: u32) -> Result<Vec<Seed>, AllocError>
        ensures nodes { IfOk result (λ seeds. All (λ seed. seed.node < self.now.arcs.nodes) seeds.items) }
        ensures exact { IfOk result (λ seeds. AreSeeds self.now.reads.items window seeds.items) }
    {
        let mut seeds = Vec::new(alloc);
        let mut end = self.end(window);
        while end > 0 {
            let k = end - 1;
            seeds.push(seed_of(self.reads[k as usize]))?;
            end = self.rows.before(k);
        }
        Ok(seeds)
    }
}
