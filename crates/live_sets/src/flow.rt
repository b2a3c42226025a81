// The reads of a function, and the arcs along which locations are live.

ghost use Rattle.std.specs.Prelude.{◌≡◌, ◌≤◌, ◌<◌, ◌^◌, ◌-◌, ◌+◌, ◌↔◌, ℕ, List, None, is_some, length, IfOk, OnOk};
ghost use Rattle.std.specs.List.{All, Contains};
ghost use Rattle.bril_tree.specs.Live.{IsLive};
ghost use Rattle.bril_tree.specs.Operand.{Location};
ghost use Rattle.bril_tree.specs.Shape.{shape_fault_of};
ghost use Rattle.bril_tree.specs.Sites.{AreSitesSound};
ghost use Rattle.bril_tree.specs.declared.numbered.Instr.{Instr};
ghost use Rattle.flow_graph.specs.Graph.{IsGraphOf};
ghost use Rattle.flow_graph.specs.Location.{number_of};
ghost use Rattle.graph_search.specs.Path.{IsBetween, IsReached, other_than};
ghost use Rattle.live_sets.specs.Flow.{IsFlowOf};

use crate::arcs::back_arcs;
use bril_tree::numbered_function::Func;
use flow_graph::{AccessLists, Graph, all_reads};
use graph_search::{ArcGraph, OtherThan, Reached, number_of_length};
use std::alloc::{AllocError, Global};
use std::marker::Model;

/// The reads of a function, and the arcs along which locations are live, from a point back to where a branch to it
/// leaves.
#[derive(Drop)]
pub struct Flow {
    reads: AccessLists,
    arcs: ArcGraph,
    ghost items: { All (λ read. read.item < arcs.nodes) reads.list },
    ghost between: { All (IsBetween arcs.nodes) arcs.arcs },
    ghost few: { arcs.nodes ≤ 2 ^ 32 },
}

impl Model for Flow {
    ghost use Rattle.live_sets.specs.Flow.{FlowView};

    ghost Value = { FlowView };

    ghost view = { λ f. record { points = f.arcs.nodes; reads = f.reads; arcs = f.arcs.arcs } };
}

impl Flow {
    /// The reads and the arcs of a function whose items have the shapes of their operations and whose open sites are
    /// sound. Takes time and memory in proportion to its items. A function that names a variable of a number from 2^31
    /// on, or has 2^32 - 1 reads or edges or more, is taken to need more memory than there is.
    pub fn of(alloc: Global, func: &Func, graph: &Graph) -> Result<Flow, AllocError>
        requires shaped { shape_fault_of (is_some func.now.ret) func.now.code ≡ None }
        requires few { length func.now.code < 2 ^ 32 - 1 }
        requires graph { IsGraphOf func.now.code graph.now }
        requires sound { AreSitesSound func.now.code }
        ensures { IfOk result (λ flow. IsFlowOf func.now.code flow) }
    {
        let reads = all_reads(alloc, func.code.as_slice())?;
        let arcs = back_arcs(alloc, func, graph)?;
        number_of_length(reads.len())?;
        number_of_length(arcs.len())?;
        let nodes = func.code.as_slice().len() + 1;
        Ok(Flow {
            reads: AccessLists::of(alloc, reads)?,
            arcs: ArcGraph::of(alloc, nodes, arcs)?,
        })
    }

    /// The number of points, the function's end among them. Takes no memory.
    pub fn points(&self) -> usize
        ensures same { result ≡ self.now.points }
        ensures few { result ≤ 2 ^ 32 }
    {
        self.arcs.nodes()
    }

    /// The reads of all items. Takes no memory.
    pub fn reads(&self) -> &AccessLists
        ensures { result.now ≡ self.now.reads }
    {
        &self.reads
    }

    /// Finds the points from which paths lead to these items past no item that assigns the location; what was found
    /// before is forgotten. After an error, for want of memory, nothing is told of what was found.
    pub fn search(
        &self,
        reached: &mut Reached,
        items: &[u32],
        location: u32,
    ) -> Result<(), AllocError>
        requires points { reached.old.nodes ≡ self.now.points }
        requires items { All (λ item. item < self.now.points) items.now }
        ensures points { reached.new.nodes ≡ reached.old.nodes }
        ensures found { OnOk result ((point : ℕ) → Contains reached.new.found point ↔ IsReached self.now.arcs items.now (other_than location) point) }
    {
        let gate = OtherThan { label: location };
        reached.search(&self.arcs, items, &gate)?;
        Ok(())
    }

    /// Finds exactly the points at which the location of a number is live; what was found before is forgotten. Takes time in
    /// proportion to the points that are found and the branches to them, and to the items that read the location. After an
    /// error, for want of memory, nothing is told of what was found.
    pub fn search_live(
        &self,
        alloc: Global,
        reached: &mut Reached,
        location: u32,
    ) -> Result<(), AllocError>
        requires points { reached.old.nodes ≡ self.now.points }
        ensures points { reached.new.nodes ≡ reached.old.nodes }
        ensures within { OnOk result (All (λ point. point < self.now.points) reached.new.found) }
        ensures live { OnOk result ((code : List Instr) → IsFlowOf code self.now → (x : Location) → number_of x ≡ location
            → (point : ℕ) → Contains reached.new.found point ↔ IsLive code x point) }
    {
        let items = self.reads.items(alloc, location)?;
        self.search(reached, items.as_slice(), location)?;
        Ok(())
    }
}
