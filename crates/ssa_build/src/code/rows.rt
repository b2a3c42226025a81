// For each point the labels for which `set`s stand before it.

ghost use Rattle.std.specs.Prelude.{◌≡◌, ◌<◌, ◌+◌, ◌^◌, ◌-◌, [], ℕ, length, slice_get, slice_index_or, IfOk};
ghost use Rattle.std.specs.List.{All};
ghost use Rattle.ssa_build.specs.code.Rows.{AreRows, IsRow, leaves_before, leaves_of};
ghost use Rattle.ssa_laws.specs.inserted_copies.Inserted.{is_jump};

use bril_tree::edge::Edge;
use bril_tree::numbered::Instr;
use bril_tree::operation::Op;
use bril_tree::sequence::Seq;
use flow_graph::{Access, AccessLists, Graph};
use graph_search::{ArcGraph, Reached, number_of_length};
use ssa_search::accesses::distinct;
use ssa_search::placing::is_label_at;
use std::alloc::{AllocError, Global};

// Whether a jump stands at a point.
fn is_jump_at(code: &[Instr], point: u32) -> bool
    ensures { result ≡ is_jump (slice_get code.now point) }
{
    match code.get(point as usize) {
        Some(Instr::Act { op: Op::Jmp, .. }) => true,
        Some(Instr::Act { op: Op::Br, .. }) => true,
        _ => false,
    }
}

// Whether the edge goes to a label, and the `set`s for it stand before the point where it leaves.
fn leaves_before(code: &[Instr], edge: Edge) -> bool
    ensures { result ≡ leaves_before code.now edge }
{
    let jumps = is_jump_at(code, edge.leave);
    is_label_at(code, edge.to) && (jumps || edge.leave != edge.from)
}

// The labels of these edges by the points where they leave.
fn leaves(alloc: Global, code: &[Instr], edges: &[Edge]) -> Result<Vec<Access>, AllocError>
    ensures { IfOk result (λ leaves. leaves.items ≡ leaves_of code.now edges.now) }
{
    let mut leaves = Vec::new(alloc);
    for edge in edges {
        if leaves_before(code, *edge) {
            leaves.push(Access {
                item: edge.to,
                location: edge.leave,
            })?;
        }
    }
    Ok(leaves)
}

// The same in rows by these points. As many as 2^32 - 1 are taken to need more memory than there is.
fn leave_lists(alloc: Global, code: &[Instr], edges: &[Edge]) -> Result<AccessLists, AllocError>
    ensures { IfOk result (λ lists. lists.list ≡ leaves_of code.now edges.now) }
{
    let leaves = leaves(alloc, code, edges)?;
    number_of_length(leaves.len())?;
    AccessLists::of(alloc, leaves)
}

// The row of a point, by a table of reached and a graph without arcs.
fn row_of(
    alloc: Global,
    lists: &AccessLists,
    reached: &mut Reached,
    none: &ArcGraph,
    point: u32,
) -> Result<Seq<u32>, AllocError>
    requires nodes { reached.old.nodes ≡ none.now.nodes }
    requires none { none.now.arcs ≡ [] }
    requires within { All (λ access. access.item < none.now.nodes) lists.now.list }
    ensures nodes { reached.new.nodes ≡ reached.old.nodes }
    ensures row { IfOk result (λ row. IsRow lists.now.list point row) }
{
    let labels = lists.items(alloc, point)?;
    distinct(reached, none, labels.as_slice())?;
    Ok(Seq::of_items(Vec::from_slice(alloc, reached.found())?))
}

// The rows of so many points.
fn rows_of(
    alloc: Global,
    lists: &AccessLists,
    reached: &mut Reached,
    none: &ArcGraph,
    points: usize,
) -> Result<Vec<Seq<u32>>, AllocError>
    requires nodes { reached.old.nodes ≡ none.now.nodes }
    requires none { none.now.arcs ≡ [] }
    requires within { All (λ access. access.item < none.now.nodes) lists.now.list }
    requires few { points < 2 ^ 32 }
    ensures long { IfOk result (λ rows. length rows.items ≡ points) }
    ensures each { IfOk result (λ rows. (point : ℕ) → point < points → IsRow lists.now.list point (slice_index_or rows.items point [])) }
{
    let mut rows = Vec::new(alloc);
    for point in 0..points {
        rows.push(row_of(alloc, lists, reached, none, point as u32)?)?;
    }
    Ok(rows)
}

/// For each point of a function the labels to which edges leave from a jump there, or by an abort from the speculation that begins
/// there, each once. Takes time and memory in proportion to the items and the edges. The only error is out of memory, which 2^32 - 1
/// such edges or more are taken to need.
pub fn leaving_rows(
    alloc: Global,
    code: &[Instr],
    graph: &Graph,
) -> Result<Vec<Seq<u32>>, AllocError>
    requires few { length code.now < 2 ^ 32 - 1 }
    ensures { IfOk result (λ rows. AreRows code.now graph.now.edges rows.items) }
{
    let lists = leave_lists(alloc, code, graph.edges())?;
    let none = ArcGraph::of(alloc, code.len(), Vec::new(alloc))?;
    let mut reached = Reached::new(alloc, code.len())?;
    let rows = rows_of(alloc, &lists, &mut reached, &none, code.len())?;
    Ok(rows)
}
