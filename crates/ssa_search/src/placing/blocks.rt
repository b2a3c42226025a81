// The blocks of a function: where each begins, and the arcs between them.

ghost use Rattle.std.specs.Prelude.{◌≡◌, ◌<◌, ◌^◌, ◌++◌, ℕ, IfOk, OnOk, length, slice_get, slice_index};
ghost use Rattle.bril_tree.specs.Sites.{AreSitesSound};
ghost use Rattle.flow_graph.specs.Graph.{IsGraphOf};
ghost use Rattle.ssa_search.specs.placing.Blocks.{AreBlockArcs, edge_arcs, head_before};
ghost use Rattle.ssa_search.specs.placing.Wanted.{head_of, is_label};

use bril_tree::edge::Edge;
use bril_tree::numbered::Instr;
use flow_graph::Graph;
use graph_search::Arc;
use std::alloc::{AllocError, Global};

/// Whether a label stands at a point. Takes no memory.
pub fn is_label_at(code: &[Instr], point: u32) -> bool
    ensures { result ≡ is_label (slice_get code.now point) }
{
    match code.get(point as usize) {
        Some(Instr::Label(_)) => true,
        _ => false,
    }
}

// The head of a point's block, from that of the point before it.
fn next_head(code: &[Instr], point: u32, head: u32) -> u32
    requires { head ≡ head_before code.now point }
    ensures { result ≡ head_of code.now point }
{
    if point > 0 && is_label_at(code, point) {
        point
    } else {
        head
    }
}

/// For each item the label at or before it that is nearest to it, or 0 where there is none: the point at which its block begins.
/// Takes time and memory in proportion to the items, and fails where memory is lacking.
pub fn heads(alloc: Global, code: &[Instr]) -> Result<Vec<u32>, AllocError>
    requires few { length code.now < 2 ^ 32 }
    ensures long { IfOk result (λ heads. length heads.items ≡ length code.now) }
    ensures heads { IfOk result (λ heads. (point : ℕ) → point < length code.now → slice_index heads.items point ≡ head_of code.now point) }
{
    let mut heads = Vec::new(alloc);
    let mut head = 0;
    for point in 0..code.len() as u32 {
        head = next_head(code, point, head);
        heads.push(head)?;
    }
    Ok(heads)
}

// Adds the arc of an edge, where it goes from a block with a label to a label.
fn push_arc(arcs: &mut Vec<Arc>, code: &[Instr], head: u32, edge: Edge) -> Result<(), AllocError>
    requires { head ≡ head_of code.now edge.leave }
    ensures { OnOk result (arcs.new.items ≡ arcs.old.items ++ edge_arcs code.now edge) }
{
    if !is_label_at(code, edge.to) {
        return Ok(());
    }
    if !is_label_at(code, head) {
        return Ok(());
    }
    arcs.push(Arc {
        from: edge.to,
        to: head,
        label: Some(edge.leave),
    })?;
    Ok(())
}

/// The arcs between the blocks of a function whose open sites are sound: from each label back to that of each block from which
/// an edge to it leaves, with the point where it leaves. `heads` has where the blocks begin. Takes time and memory in
/// proportion to the edges, and fails where memory is lacking.
pub fn block_arcs(
    alloc: Global,
    code: &[Instr],
    heads: &[u32],
    graph: &Graph,
) -> Result<Vec<Arc>, AllocError>
    requires long { length heads.now ≡ length code.now }
    requires heads { (point : ℕ) → point < length code.now → slice_index heads.now point ≡ head_of code.now point }
    requires graph { IsGraphOf code.now graph.now }
    requires sound { AreSitesSound code.now }
    ensures { IfOk result (λ arcs. AreBlockArcs code.now arcs.items) }
{
    let mut arcs = Vec::new(alloc);
    for edge in graph.edges() {
        push_arc(&mut arcs, code, heads[edge.leave as usize], *edge)?;
    }
    Ok(arcs)
}
