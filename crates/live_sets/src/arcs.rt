// The arcs along which locations are live, from a point back to where a branch to it leaves.

ghost use Rattle.std.specs.Prelude.{◌≡◌, ◌<◌, ◌+◌, ◌^◌, ◌-◌, ◌++◌, ◌∷◌, [], List, All, None, Some, is_some, length, map, IfOk, OnOk};
ghost use Rattle.bril_tree.specs.Labels.{IsLabelTable};
ghost use Rattle.bril_tree.specs.Shape.{shape_fault_of};
ghost use Rattle.bril_tree.specs.Sites.{AreSitesSound};
ghost use Rattle.bril_tree.specs.declared.numbered.Instr.{Instr};
ghost use Rattle.flow_graph.specs.Branches.{HasLabels, branch_of, branches_of};
ghost use Rattle.flow_graph.specs.Graph.{IsGraphOf};
ghost use Rattle.live_sets.specs.Arcs.{AreBackArcs, abort_arc, abort_arcs, arc_back, arcs_from, item_arcs, plain_arc, plain_arcs};

use bril_tree::numbered::Instr;
use bril_tree::numbered_function::Func;
use flow_graph::{Branch, Branches, Edge, Graph, assigned_number, branches_of, point_number};
use graph_search::Arc;
use std::alloc::{AllocError, Global};

// The arcs of a function.
pub(crate) fn back_arcs(alloc: Global, func: &Func, graph: &Graph) -> Result<Vec<Arc>, AllocError>
    requires shaped { shape_fault_of (is_some func.now.ret) func.now.code ≡ None }
    requires few { length func.now.code < 2 ^ 32 - 1 }
    requires graph { IsGraphOf func.now.code graph.now }
    requires sound { AreSitesSound func.now.code }
    ensures { IfOk result (λ arcs. AreBackArcs func.now.code arcs.items) }
{
    let points = func.label_points(alloc)?;
    let code = func.code.as_slice();
    let mut arcs = plain_arcs(alloc, code, points.as_slice())?;
    push_aborts(&mut arcs, code, graph.edges())?;
    Ok(arcs)
}

// The arcs of all branches other than aborts. `points` has the point of each label.
fn plain_arcs(alloc: Global, code: &[Instr], points: &[u32]) -> Result<Vec<Arc>, AllocError>
    requires placed { IsLabelTable code.now points.now }
    requires labelled { All (HasLabels (length points.now)) code.now }
    requires few { length code.now < 2 ^ 32 - 1 }
    ensures { IfOk result (λ arcs. arcs.items ≡ arcs_from code.now 0 code.now) }
{
    let mut arcs = Vec::new(alloc);
    for (point, item) in code.iter().enumerate() {
        push_item(&mut arcs, points, item, point as u32)?;
    }
    Ok(arcs)
}

// Adds the arcs of the branches from an item other than aborts.
fn push_item(
    arcs: &mut Vec<Arc>,
    points: &[u32],
    item: &Instr,
    point: u32,
) -> Result<(), AllocError>
    requires labelled { HasLabels (length points.now) item.now }
    requires few { point + 1 < 2 ^ 32 }
    ensures { OnOk result ((code : List Instr) → IsLabelTable code points.now → arcs.new.items ≡ arcs.old.items ++ item_arcs code point item.now) }
{
    let number = assigned_number(item)?;
    push_branches(arcs, number, branches_of(points, item, point))
}

// Adds the arcs of those of these branches that are no aborts.
fn push_branches(
    arcs: &mut Vec<Arc>,
    number: Option<u32>,
    branches: Branches,
) -> Result<(), AllocError>
    ensures { OnOk result (arcs.new.items ≡ arcs.old.items ++ plain_arcs number (branches_of branches)) }
{
    match branches {
        Branches::Nowhere => Ok(()),
        Branches::Single(branch) => push_branch(arcs, number, branch),
        Branches::Either(first, second) => {
            push_branch(arcs, number, first)?;
            push_branch(arcs, number, second)
        }
    }
}

// Adds the arc of a branch, where it is no abort.
fn push_branch(arcs: &mut Vec<Arc>, number: Option<u32>, branch: Branch) -> Result<(), AllocError>
    ensures { OnOk result (arcs.new.items ≡ arcs.old.items ++ plain_arc number (branch_of branch)) }
{
    if branch.aborts {
        return Ok(());
    }
    arcs.push(arc(branch.from, number, branch.to))?;
    Ok(())
}

// The arc from a point back to one that assigns the location of a number.
fn arc(leave: u32, number: Option<u32>, to: u32) -> Arc
    ensures { result ≡ arc_back leave number to }
{
    Arc {
        from: to,
        to: leave,
        label: number,
    }
}

// Adds the arcs of the edges that leave elsewhere than at their own items.
fn push_aborts(arcs: &mut Vec<Arc>, code: &[Instr], edges: &[Edge]) -> Result<(), AllocError>
    ensures { OnOk result (arcs.new.items ≡ arcs.old.items ++ abort_arcs code.now edges.now) }
{
    for edge in edges {
        push_abort(arcs, code, *edge)?;
    }
    Ok(())
}

// Adds the arc of an edge, where it leaves elsewhere than at its own item.
fn push_abort(arcs: &mut Vec<Arc>, code: &[Instr], edge: Edge) -> Result<(), AllocError>
    ensures { OnOk result (arcs.new.items ≡ arcs.old.items ++ abort_arc code.now edge) }
{
    if edge.leave == edge.from {
        return Ok(());
    }
    let number = point_number(code, edge.leave)?;
    arcs.push(arc(edge.leave, number, edge.to))?;
    Ok(())
}
