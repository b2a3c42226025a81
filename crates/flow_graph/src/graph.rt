// The flow graph of a function.

ghost use Rattle.std.specs.Prelude.{◌≡◌, ◌⊎◌, ◌≤◌, ◌<◌, ◌+◌, ◌^◌, ◌-◌, ◌==◌, ℕ, None, Some, length, filter, is_some, option_map, slice_index, slice_get, IfOk, IfErr, MatchResult};
ghost use Rattle.bril_tree.specs.Shape.{shape_fault_of};
ghost use Rattle.bril_tree.specs.Sites.{AreSitesSound};
ghost use Rattle.flow_graph.specs.Graph.{ArePreds, ArePreds-prop, IsGraphOf, IsLeastFailing};
ghost use Rattle.flow_graph.specs.Branches.{AreBranchRows};
ghost use Rattle.flow_graph.specs.declared.graph.GraphFault.TheVariants.{Nest, Memory};

use crate::branches::{Branches, all_branches};
use crate::edges::{all_edges, all_preds};
use crate::open_sites::all_sites;
use crate::search::first_visits;
use crate::sites::{Failing, judged};
use bril_tree::edge::Edge;
use bril_tree::numbered::Instr;
use bril_tree::numbered_function::Func;
use bril_tree::sequence::Seq;
use std::alloc::{AllocError, Global};
use std::marker::Model;
use thiserror::Error;

/// Why a function has no flow graph.
#[derive(Clone, Copy, PartialEq, Eq, Debug, Drop, Error)]
pub enum GraphFault {
    /// The open speculation sites fail at this point, and at none before it.
    #[error("point {point}: the open speculations don't nest")]
    Nest { point: u32 },
    #[error("out of memory")]
    Memory,
}

impl From<AllocError> for GraphFault {
    ghost from_gives = { λ _ e. e ≡ Memory };

    fn from(_fault: AllocError) -> GraphFault {
        GraphFault::Memory
    }
}

impl From<Failing> for GraphFault {
    ghost from_gives = { λ failing e. e ≡ Nest failing.point };

    fn from(failing: Failing) -> GraphFault {
        GraphFault::Nest {
            point: failing.point,
        }
    }
}

/// The flow graph of a function: for each point whether walks lead there and with which open sites, and its edges.
#[derive(Drop)]
pub struct Graph {
    sites: Seq<Option<Seq<u32>>>,
    edges: Seq<Edge>,
    preds: Vec<Seq<Edge>>,
    ghost told: { ArePreds (length sites) edges preds.items } by { ArePreds-prop (length sites) edges preds.items },
}

impl Model for Graph {
    ghost use Rattle.flow_graph.specs.Graph.{GraphView};

    ghost Value = { GraphView };

    ghost view = { λ g. record { sites = g.sites; edges = g.edges } };
}

impl Graph {
    /// The flow graph of a function whose items have the shapes of their operations.
    ///
    /// `Nest` comes exactly where the open sites fail at some point: more than eight are open there, or none is at a
    /// `commit` or a `guard`, or two walks bring others; `point` is the least such point. `Memory` may come at any
    /// time, where memory is wanting.
    pub fn of(alloc: Global, func: &Func) -> Result<Graph, GraphFault>
        requires shaped { shape_fault_of (is_some func.now.ret) func.now.code ≡ None }
        requires few { length func.now.code < 2 ^ 32 - 1 }
        ensures found { IfOk result (λ graph. IsGraphOf func.now.code graph) }
        ensures sound { IfOk result (λ _. AreSitesSound func.now.code) }
        ensures fault { IfErr result (λ fault. (fault ≡ Memory) ⊎ ((point : ℕ) × (fault ≡ Nest point) × IsLeastFailing func.now.code point)) }
        ensures faults { (point : ℕ) → IsLeastFailing func.now.code point
            → MatchResult result (λ _. ⊥) (λ fault. (fault ≡ Nest point) ⊎ (fault ≡ Memory)) }
    {
        let rows = rows_of(alloc, func)?;
        Graph::drawn(alloc, func.code.as_slice(), rows.as_slice())
    }

    /// The flow graph of a function whose items have the shapes of their operations and whose open sites fail at no point,
    /// as in an accepted program. An error means that there is no memory.
    pub fn of_sound(alloc: Global, func: &Func) -> Result<Graph, AllocError>
        requires shaped { shape_fault_of (is_some func.now.ret) func.now.code ≡ None }
        requires few { length func.now.code < 2 ^ 32 - 1 }
        requires sound { AreSitesSound func.now.code }
        ensures { IfOk result (λ graph. IsGraphOf func.now.code graph) }
    {
        match Graph::of(alloc, func) {
            Ok(graph) => Ok(graph),
            Err(GraphFault::Memory) => Err(AllocError),
            Err(GraphFault::Nest { .. }) => unreachable!(),
        }
    }

    // The flow graph of these items, of which `rows` are the branches from each point.
    pub(crate) fn drawn(
        alloc: Global,
        code: &[Instr],
        rows: &[Branches],
    ) -> Result<Graph, GraphFault>
        requires rows { AreBranchRows code.now rows.now }
        requires few { length code.now < 2 ^ 32 - 1 }
        ensures found { IfOk result (λ graph. IsGraphOf code.now graph) }
        ensures sound { IfOk result (λ _. AreSitesSound code.now) }
        ensures fault { IfErr result (λ fault. (fault ≡ Memory) ⊎ ((point : ℕ) × (fault ≡ Nest point) × IsLeastFailing code.now point)) }
        ensures faults { (point : ℕ) → IsLeastFailing code.now point
            → MatchResult result (λ _. ⊥) (λ fault. (fault ≡ Nest point) ⊎ (fault ≡ Memory)) }
    {
        let visits = first_visits(alloc, code, rows)?;
        judged(code, rows, visits.as_slice())?;
        let sites = all_sites(alloc, visits.as_slice())?;
        let edges = all_edges(alloc, rows, sites.as_slice())?;
        let preds = all_preds(alloc, rows.len(), edges.as_slice())?;
        Ok(Graph {
            sites,
            edges,
            preds,
        })
    }

    /// Whether some walk leads to the point. Takes no memory.
    pub fn reach(&self, point: u32) -> bool
        requires { point < length self.now.sites }
        ensures { Some result ≡ option_map is_some (slice_get self.now.sites point) }
    {
        self.sites.as_slice()[point as usize].is_some()
    }

    /// The open sites at a point, the newest first; None exactly where no walk leads there. Takes no memory.
    pub fn sites(&self, point: u32) -> Option<&[u32]>
        requires { point < length self.now.sites }
        ensures { Some (option_map (λ s. s.now) result) ≡ slice_get self.now.sites point }
    {
        match &self.sites.as_slice()[point as usize] {
            None => None,
            Some(sites) => Some(sites.as_slice()),
        }
    }

    /// The edges of the points to which walks lead, by rising `from`; of one item the next point stands before a label,
    /// and of two labels the first one first. Takes no memory.
    pub fn edges(&self) -> &[Edge]
        ensures { result.now ≡ self.now.edges }
    {
        self.edges.as_slice()
    }

    /// Those of the edges that go to the point, in the same order. Takes no memory.
    pub fn preds(&self, point: u32) -> &[Edge]
        requires { point < length self.now.sites }
        ensures { result.now ≡ filter (λ e. e.to == point) self.now.edges }
    {
        self.preds[point as usize].as_slice()
    }
}

// The branches from each point of a function whose items have the shapes of their operations.
fn rows_of(alloc: Global, func: &Func) -> Result<Vec<Branches>, AllocError>
    requires shaped { shape_fault_of (is_some func.now.ret) func.now.code ≡ None }
    requires few { length func.now.code < 2 ^ 32 - 1 }
    ensures { IfOk result (λ rows. AreBranchRows func.now.code rows.items) }
{
    let points = func.label_points(alloc)?;
    all_branches(alloc, func.code.as_slice(), points.as_slice())
}
