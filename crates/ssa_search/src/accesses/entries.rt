// The entries of labels: each leave point of each label once.

ghost use Rattle.std.specs.Prelude.{◌≡◌, ◌<◌, ◌↔◌, ◌^◌, ◌-◌, ◌++◌, [], ℕ, suc, length, map, slice_get, IfOk, OnOk};
ghost use Rattle.std.specs.List.{All, Contains};
ghost use Rattle.bril_tree.specs.Sites.{AreSitesSound};
ghost use Rattle.flow_graph.specs.Graph.{IsGraphOf};
ghost use Rattle.ssa_search.specs.accesses.Entries.{AreEntriesBefore, AreEntriesOf, entry_of, start_entries};
ghost use Rattle.ssa_search.specs.placing.Wanted.{is_label};

use crate::placing::is_label_at;
use bril_tree::edge::Edge;
use bril_tree::numbered::Instr;
use flow_graph::Graph;
use graph_search::{ArcGraph, OtherThan, Reached};
use std::alloc::{AllocError, Global};

/// A label, by the number of its item, and a point from which an edge to it leaves; None is the start of the function, which has
/// one edge, to the first item.
#[derive(Clone, Copy, PartialEq, Eq, Debug, Drop)]
pub struct Entry {
    pub leave: Option<u32>,
    pub label: u32,
}

// The points where these edges leave.
fn leaves_of(alloc: Global, edges: &[Edge]) -> Result<Vec<u32>, AllocError>
    ensures { IfOk result (λ leaves. leaves.items ≡ map (λ edge. edge.leave) edges.now) }
{
    edges.iter().map(|edge| edge.leave).collect(alloc)
}

/// Makes a table of reached have these nodes, each once. `none` is a graph without arcs. Takes time in proportion to the nodes that
/// are given. The only error is want of memory, after which nothing is told of the table.
pub fn distinct(reached: &mut Reached, none: &ArcGraph, nodes: &[u32]) -> Result<(), AllocError>
    requires nodes { reached.old.nodes ≡ none.now.nodes }
    requires within { All (λ node. node < none.now.nodes) nodes.now }
    requires none { none.now.arcs ≡ [] }
    ensures nodes { reached.new.nodes ≡ reached.old.nodes }
    ensures found { OnOk result ((node : ℕ) → Contains reached.new.found node ↔ Contains nodes.now node) }
{
    reached.search(none, nodes, &OtherThan { label: 0 })?;
    Ok(())
}

// Adds an entry of a label for each of these points.
fn push_entries(entries: &mut Vec<Entry>, leaves: &[u32], label: u32) -> Result<(), AllocError>
    ensures { OnOk result (entries.new.items ≡ entries.old.items ++ map (entry_of label) leaves.now) }
{
    for leave in leaves {
        entries.push(Entry {
            leave: Some(*leave),
            label,
        })?;
    }
    Ok(())
}

// Adds the entries of the label at a point, where one stands there, but for that from the start of the function. `code` has the
// function's items.
fn push_label(
    alloc: Global,
    entries: &mut Vec<Entry>,
    code: &[Instr],
    graph: &Graph,
    reached: &mut Reached,
    none: &ArcGraph,
    point: u32,
) -> Result<(), AllocError>
    requires graph { IsGraphOf code.now graph.now }
    requires sound { AreSitesSound code.now }
    requires nodes { reached.old.nodes ≡ none.now.nodes }
    requires points { none.now.nodes ≡ length code.now }
    requires none { none.now.arcs ≡ [] }
    requires point { point < length code.now }
    requires before { AreEntriesBefore code.now point entries.old.items }
    ensures nodes { reached.new.nodes ≡ reached.old.nodes }
    ensures behind { OnOk result (AreEntriesBefore code.now (suc point) entries.new.items) }
{
    if !is_label_at(code, point) {
        return Ok(());
    }
    let leaves = leaves_of(alloc, graph.preds(point))?;
    distinct(reached, none, leaves.as_slice())?;
    push_entries(entries, reached.found(), point)?;
    Ok(())
}

// The entry of the first item from the start of the function, where a label stands there.
fn start_entries(alloc: Global, code: &[Instr]) -> Result<Vec<Entry>, AllocError>
    ensures { IfOk result (λ entries. entries.items ≡ start_entries (is_label (slice_get code.now 0))) }
{
    let mut entries = Vec::new(alloc);
    if is_label_at(code, 0) {
        entries.push(Entry {
            leave: None,
            label: 0,
        })?;
    }
    Ok(entries)
}

/// The entries of all labels of a function whose open sites are sound. Takes time and memory in proportion to the edges and the
/// items. The only error is want of memory.
pub fn label_entries(alloc: Global, code: &[Instr], graph: &Graph) -> Result<Vec<Entry>, AllocError>
    requires few { length code.now < 2 ^ 32 - 1 }
    requires graph { IsGraphOf code.now graph.now }
    requires sound { AreSitesSound code.now }
    ensures { IfOk result (λ entries. AreEntriesOf code.now entries.items) }
{
    let none = ArcGraph::of(alloc, code.len(), Vec::new(alloc))?;
    let mut reached = Reached::new(alloc, code.len())?;
    let mut entries = start_entries(alloc, code)?;
    for point in 0..code.len() {
        push_label(
            alloc,
            &mut entries,
            code,
            graph,
            &mut reached,
            &none,
            point as u32,
        )?;
    }
    Ok(entries)
}
