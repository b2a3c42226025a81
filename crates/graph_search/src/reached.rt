// A table of reached, and the search that makes them.

ghost use Rattle.std.specs.Prelude.{◌≡◌, ◌≢◌, ◌<◌, ◌≤◌, ◌↔◌, ◌⊎◌, ℕ, IsTrue, true, [], length, slice_index, IfOk, OnOk};
ghost use Rattle.std.specs.List.{All, AllPairs, Contains};
ghost use Rattle.graph_search.specs.Path.{IsReached, Leads};

use crate::gate::Gate;
use crate::graph::{Arc, ArcGraph};
use std::alloc::{AllocError, Global};
use std::marker::Model;

/// The nodes that the last search found. One table serves any number of searches, each in time in proportion to the
/// nodes that it finds and to their arcs: a search reached nodes with a stamp of its own, so that none is cleared.
#[derive(Drop)]
pub struct Reached {
    stamps: Vec<u32>,
    stamp: u32,
    found: Vec<u32>,
}

impl Model for Reached {
    ghost use Rattle.std.specs.Prelude.{length};
    ghost use Rattle.graph_search.specs.Reached.{ReachedView, AreReached};

    ghost Value = { ReachedView };

    ghost view = { λ m. record { nodes = length m.stamps.items; found = m.found.items } };

    ghost invariant = { λ m. AreReached m.stamps.items m.stamp m.found.items };
}

// A stamp that no node has.
fn next_stamp(stamps: &mut [u32], stamp: u32) -> u32
    requires { All (λ s. s ≤ stamp) stamps.old }
    ensures { All (λ s. s < result) stamps.new }
{
    if stamp < u32::MAX {
        return stamp + 1;
    }
    for s in stamps.iter_mut() {
        *s = 0;
    }
    1
}

impl Reached {
    ghost use Rattle.graph_search.specs.Reached.{Visits, VisitsAll};

    /// A table for so many nodes, of which none is found.
    pub fn new(alloc: Global, nodes: usize) -> Result<Reached, AllocError>
        ensures nodes { IfOk result (λ reached. reached.nodes ≡ nodes) }
        ensures found { IfOk result (λ reached. reached.found ≡ []) }
    {
        Ok(Reached {
            stamps: vec![in alloc; 0u32; nodes]?,
            stamp: 1,
            found: Vec::new(alloc),
        })
    }

    /// Whether the node was found. Takes no memory.
    pub fn is_marked(&self, node: u32) -> bool
        requires { node < self.now.nodes }
        ensures { IsTrue result ↔ Contains self.now.found node }
    {
        self.stamps[node as usize] == self.stamp
    }

    /// The nodes that were found, each once. Takes no memory.
    pub fn found(&self) -> &[u32]
        ensures value { result.now ≡ self.now.found }
        ensures once { AllPairs (λ m n. m ≢ n) result.now }
    {
        self.found.as_slice()
    }

    /// Finds the nodes that paths reach from the seeds over arcs that the gate opens; what was found before is
    /// forgotten. After an error, for want of memory, nothing is told of what was found.
    pub fn search<G: Gate>(
        &mut self,
        graph: &ArcGraph,
        seeds: &[u32],
        gate: &G,
    ) -> Result<(), AllocError>
        requires nodes { self.old.nodes ≡ graph.now.nodes }
        requires seeds { All (λ seed. seed < graph.now.nodes) seeds.now }
        ensures nodes { self.new.nodes ≡ self.old.nodes }
        ensures found { OnOk result ((node : ℕ) →
            Contains self.new.found node ↔ IsReached graph.now.arcs seeds.now (G.opens gate.now) node) }
    {
        self.restart();
        for seed in seeds {
            let first = self.found.len();
            self.visit(*seed)?;
            self.drain(graph, first, gate)?;
        }
        Ok(())
    }

    // Forgets what was found.
    fn restart(&mut self)
        ensures nodes { self.new.nodes ≡ self.old.nodes }
        ensures found { self.new.found ≡ [] }
    {
        self.stamp = next_stamp(self.stamps.as_mut_slice(), self.stamp);
        self.found.clear();
    }

    // Adds the node, unless it was found before.
    fn visit(&mut self, node: u32) -> Result<(), AllocError>
        requires { node < self.old.nodes }
        ensures nodes { self.new.nodes ≡ self.old.nodes }
        ensures found { OnOk result (Visits node self.old.found self.new.found) }
    {
        if self.stamps[node as usize] != self.stamp {
            self.found.push(node)?;
            self.stamps[node as usize] = self.stamp;
        }
        Ok(())
    }

    // Adds the node to which the arc goes, where the gate opens it.
    fn cross<G: Gate>(&mut self, arc: Arc, gate: &G) -> Result<(), AllocError>
        requires { arc.to < self.old.nodes }
        ensures nodes { self.new.nodes ≡ self.old.nodes }
        ensures found { OnOk result (VisitsAll (λ node. (arc.to ≡ node) × (G.opens gate.now arc ≡ true)) self.old.found self.new.found) }
    {
        if !gate.is_open(arc) {
            return Ok(());
        }
        self.visit(arc.to)
    }

    // Adds the nodes to which arcs lead from this one.
    fn visit_next<G: Gate>(
        &mut self,
        graph: &ArcGraph,
        node: u32,
        gate: &G,
    ) -> Result<(), AllocError>
        requires nodes { self.old.nodes ≡ graph.now.nodes }
        requires node { node < self.old.nodes }
        ensures nodes { self.new.nodes ≡ self.old.nodes }
        ensures found { OnOk result (VisitsAll (Leads graph.now.arcs (G.opens gate.now) node) self.old.found self.new.found) }
    {
        let mut end = graph.adjacency.end(node);
        while end > 0 {
            let place = end - 1;
            self.cross(graph.arcs[place as usize], gate)?;
            end = graph.adjacency.before(place);
        }
        Ok(())
    }

    // Adds all that arcs lead to from the nodes at `first` and behind it, and from those that are added.
    fn drain<G: Gate>(&mut self, graph: &ArcGraph, first: usize, gate: &G) -> Result<(), AllocError>
        requires nodes { self.old.nodes ≡ graph.now.nodes }
        requires first { first ≤ length self.old.found }
        requires closed { (k : ℕ) → k < first → (node : ℕ) → Leads graph.now.arcs (G.opens gate.now) (slice_index self.old.found k) node → Contains self.old.found node }
        ensures nodes { self.new.nodes ≡ self.old.nodes }
        ensures found { OnOk result ((node : ℕ) →
            Contains self.new.found node ↔ IsReached graph.now.arcs self.old.found (G.opens gate.now) node) }
    {
        let mut next = first;
        while next < self.found.len() {
            let node = self.found[next];
            self.visit_next(graph, node, gate)?;
            next += 1;
        }
        Ok(())
    }
}
