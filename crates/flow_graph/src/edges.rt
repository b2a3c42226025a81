// The edges of the points to which walks lead.

ghost use Rattle.std.specs.Prelude.{◌≡◌, ◌<◌, ◌++◌, ◌∷◌, [], List, All, length, map, replicate, slice_index_or, slice_set, IfOk, OnOk};
ghost use Rattle.bril_tree.specs.declared.numbered.Instr.{Instr};
ghost use Rattle.bril_tree.specs.Leaving.{edge_of};
ghost use Rattle.flow_graph.specs.Graph.{ArePreds, edges_from};
ghost use Rattle.flow_graph.specs.Branches.{AreBranchRows, edges_on, branch_of, branches_of};

use crate::branches::{Branch, Branches};
use bril_tree::edge::Edge;
use bril_tree::sequence::Seq;
use std::alloc::{AllocError, Global};

// The edges of the points to which walks lead, by rising `from`. `rows` are the branches from each point, and `sites`
// its open sites, None where no walk leads.
pub fn all_edges(
    alloc: Global,
    rows: &[Branches],
    sites: &[Option<Seq<u32>>],
) -> Result<Seq<Edge>, AllocError>
    requires { length sites.now ≡ length rows.now }
    ensures { IfOk result (λ edges. (code : List Instr) → AreBranchRows code rows.now → edges ≡ edges_from code 0 sites.now) }
{
    let mut edges = Seq::new(alloc);
    for point in 0..rows.len() {
        push_edges_at(&mut edges, rows[point], &sites[point])?;
    }
    Ok(edges)
}

// Adds the edges of a point, where walks lead to it with these open sites.
fn push_edges_at(
    edges: &mut Seq<Edge>,
    row: Branches,
    sites: &Option<Seq<u32>>,
) -> Result<(), AllocError>
    ensures { OnOk result (edges.new ≡ edges.old ++ edges_on (branches_of row) sites.now) }
{
    match sites {
        None => Ok(()),
        Some(sites) => push_edges(edges, row, sites.as_slice()),
    }
}

// Adds the edges of these branches.
fn push_edges(edges: &mut Seq<Edge>, row: Branches, sites: &[u32]) -> Result<(), AllocError>
    ensures { OnOk result (edges.new ≡ edges.old ++ map (edge_of sites.now) (branches_of row)) }
{
    match row {
        Branches::Nowhere => Ok(()),
        Branches::Single(branch) => {
            edges.push(edge_of(branch, sites))?;
            Ok(())
        }
        Branches::Either(first, second) => {
            edges.push(edge_of(first, sites))?;
            edges.push(edge_of(second, sites))?;
            Ok(())
        }
    }
}

// The edge of a branch: an abort leaves from the newest open site, every other branch from its own item.
fn edge_of(branch: Branch, sites: &[u32]) -> Edge
    ensures { result ≡ edge_of sites.now (branch_of branch) }
{
    let leave = match sites.first() {
        Some(newest) if branch.aborts => *newest,
        _ => branch.from,
    };
    Edge {
        from: branch.from,
        leave,
        to: branch.to,
    }
}

// For each of so many points the edges that go to it, in order.
pub fn all_preds(alloc: Global, points: usize, edges: &[Edge]) -> Result<Vec<Seq<Edge>>, AllocError>
    requires { All (λ e. e.to < points) edges.now }
    ensures { IfOk result (λ preds. ArePreds points edges.now preds.items) }
{
    let mut preds = no_preds(alloc, points)?;
    for edge in edges {
        push_pred(&mut preds, *edge)?;
    }
    Ok(preds)
}

// For each of so many points no edge.
fn no_preds(alloc: Global, points: usize) -> Result<Vec<Seq<Edge>>, AllocError>
    ensures { IfOk result (λ preds. preds.items ≡ replicate points []) }
{
    let mut preds = Vec::new(alloc);
    for _point in 0..points {
        preds.push(Seq::new(alloc))?;
    }
    Ok(preds)
}

// Adds an edge to those of its point.
fn push_pred(preds: &mut Vec<Seq<Edge>>, edge: Edge) -> Result<(), AllocError>
    requires { edge.to < length preds.old.items }
    ensures { OnOk result (preds.new.items ≡ slice_set preds.old.items edge.to (slice_index_or preds.old.items edge.to [] ++ edge ∷ [])) }
{
    preds[edge.to as usize].push(edge)?;
    Ok(())
}
