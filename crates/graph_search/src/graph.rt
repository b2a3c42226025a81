// A graph whose arcs may have labels.

ghost use Rattle.std.specs.Prelude.{◌≡◌, ◌<◌, ◌^◌, ◌-◌, vec_len, IfOk};
ghost use Rattle.std.specs.List.{All};
ghost use Rattle.graph_search.specs.Path.{IsBetween};

use crate::adjacency::Adjacency;
use std::alloc::{AllocError, Global};
use std::marker::Model;

/// An arc from one node to another, with a label or none.
#[derive(Clone, Copy, PartialEq, Eq, Debug, Drop)]
pub struct Arc {
    pub from: u32,
    pub to: u32,
    pub label: Option<u32>,
}

/// A graph: its nodes, numbered from 0, and its arcs, in adjacency by the nodes from which they go.
#[derive(Drop)]
pub struct ArcGraph {
    pub(crate) adjacency: Adjacency,
    pub(crate) arcs: Vec<Arc>,
}

impl Model for ArcGraph {
    ghost use Rattle.std.specs.Prelude.{◌≡◌, ◌<◌, map};
    ghost use Rattle.std.specs.List.{All};
    ghost use Rattle.graph_search.specs.Path.{GraphView};

    ghost Value = { GraphView };

    ghost view = { λ g. record { nodes = g.adjacency.count; arcs = g.arcs.items } };

    ghost invariant = { λ g. (g.adjacency.keys ≡ map (λ arc. arc.from) g.arcs.items) × All (λ arc. arc.to < g.adjacency.count) g.arcs.items };
}

impl ArcGraph {
    /// The graph of these arcs, whose ends are below `nodes`. Takes time and memory in proportion to nodes and arcs.
    pub fn of(alloc: Global, nodes: usize, arcs: Vec<Arc>) -> Result<ArcGraph, AllocError>
        requires between { All (IsBetween nodes) arcs.items }
        requires few { vec_len arcs < 2 ^ 32 - 1 }
        ensures nodes { IfOk result (λ graph. graph.nodes ≡ nodes) }
        ensures arcs { IfOk result (λ graph. graph.arcs ≡ arcs.items) }
    {
        let sources = arcs.iter().map(|arc| arc.from).collect(alloc)?;
        let adjacency = Adjacency::of(alloc, nodes, sources)?;
        Ok(ArcGraph { adjacency, arcs })
    }

    /// The number of nodes. Takes no memory.
    pub fn nodes(&self) -> usize
        ensures { result ≡ self.now.nodes }
    {
        self.adjacency.count()
    }
}
