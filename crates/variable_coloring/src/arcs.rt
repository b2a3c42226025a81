// The arcs along which variables are live at reached points.

ghost use Rattle.std.specs.Prelude.{◌≡◌, IfOk};
ghost use Rattle.variable_coloring.specs.LiveWords.{edge_arc, edge_arcs};

use bril_tree::numbered::Instr;
use flow_graph::{Edge, point_number};
use graph_search::Arc;
use std::alloc::{AllocError, Global};

// The arc of an edge, from the point to which it goes back to where it leaves.
fn edge_arc(code: &[Instr], edge: Edge) -> Result<Arc, AllocError>
    ensures { IfOk result (λ arc. arc ≡ edge_arc code.now edge) }
{
    let number = point_number(code, edge.leave)?;
    Ok(Arc {
        from: edge.to,
        to: edge.leave,
        label: number,
    })
}

// The arcs of these edges.
pub(crate) fn edge_arcs(
    alloc: Global,
    code: &[Instr],
    edges: &[Edge],
) -> Result<Vec<Arc>, AllocError>
    ensures { IfOk result (λ arcs. arcs.items ≡ edge_arcs code.now edges.now) }
{
    let mut arcs = Vec::new(alloc);
    for edge in edges {
        arcs.push(edge_arc(code, *edge)?)?;
    }
    Ok(arcs)
}
