// The blocks of a function, and what is asked of them.

ghost use Rattle.std.specs.Prelude.{◌≡◌, ◌<◌, ◌^◌, ◌-◌, None, is_some, length, IfOk};
ghost use Rattle.std.specs.List.{All};
ghost use Rattle.bril_tree.specs.Shape.{shape_fault_of};
ghost use Rattle.bril_tree.specs.Sites.{AreSitesSound};
ghost use Rattle.flow_graph.specs.Graph.{IsGraphOf};
ghost use Rattle.ssa_search.specs.accesses.Accesses.{AreBlocksOf};
ghost use Rattle.ssa_search.specs.placing.Blocks.{AreBlockArcs};

use crate::accesses::accesses::{BlockAccesses, block_accesses};
use crate::placing::{block_arcs, heads};
use bril_tree::numbered::Instr;
use bril_tree::numbered_function::Func;
use flow_graph::Graph;
use graph_search::{Arc, ArcGraph, number_of_length};
use std::alloc::{AllocError, Global};

/// The blocks of a function: the head of each point's block, the arcs from each label back to those of the blocks from which edges
/// to it leave, and what the blocks read and assign.
#[derive(Drop)]
pub struct Blocks {
    pub heads: Vec<u32>,
    pub arcs: ArcGraph,
    pub accesses: BlockAccesses,
    ghost points: { length heads.items ≡ arcs.nodes },
    ghost few: { arcs.nodes < 2 ^ 32 - 1 },
    ghost inside: { All (λ head. head < arcs.nodes) heads.items },
    ghost readers: { All (λ access. access.item < arcs.nodes) accesses.exposed.list },
    ghost writers: { All (λ access. access.item < arcs.nodes) accesses.firsts.list },
}

// The graph of the arcs between blocks. As many as 2^32 - 1 are taken to need more memory than there is.
fn arc_graph(alloc: Global, code: &[Instr], arcs: Vec<Arc>) -> Result<ArcGraph, AllocError>
    requires { AreBlockArcs code.now arcs.items }
    ensures nodes { IfOk result (λ graph. graph.nodes ≡ length code.now) }
    ensures arcs { IfOk result (λ graph. AreBlockArcs code.now graph.arcs) }
{
    number_of_length(arcs.len())?;
    ArcGraph::of(alloc, code.len(), arcs)
}

/// The blocks of a function whose items have the shapes of their operations and whose open sites are sound. Takes time and memory
/// in proportion to the items, their arguments, the edges and the variables. The only error is want of memory, which a function is
/// taken to have that names a variable of a number from 2^31 on, or has 2^32 - 1 or more edges between blocks, reads of locations that
/// their blocks didn't assign before, or first assignments.
pub fn blocks_of(alloc: Global, func: &Func, graph: &Graph) -> Result<Blocks, AllocError>
    requires shaped { shape_fault_of (is_some func.now.ret) func.now.code ≡ None }
    requires few { length func.now.code < 2 ^ 32 - 1 }
    requires graph { IsGraphOf func.now.code graph.now }
    requires sound { AreSitesSound func.now.code }
    ensures { IfOk result (λ blocks. AreBlocksOf func.now.code blocks.heads.items blocks.arcs blocks.accesses.exposed.list blocks.accesses.firsts.list) }
{
    let code = func.code.as_slice();
    let heads = heads(alloc, code)?;
    let accesses = block_accesses(alloc, func, graph, heads.as_slice())?;
    let arcs = block_arcs(alloc, code, heads.as_slice(), graph)?;
    Ok(Blocks {
        arcs: arc_graph(alloc, code, arcs)?,
        heads,
        accesses,
    })
}
