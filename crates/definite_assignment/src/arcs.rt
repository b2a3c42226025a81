// The arcs along which a location stays unassigned.

ghost use Rattle.std.specs.Prelude.{◌≡◌, map, IfOk};
ghost use Rattle.definite_assignment.specs.Leaving.{leaving_arc, leaving_arcs, turned};

use bril_tree::numbered::Instr;
use flow_graph::{Edge, point_number};
use graph_search::Arc;
use std::alloc::{AllocError, Global};

// The arc of an edge, from the point where it leaves.
fn arc_of(code: &[Instr], edge: Edge) -> Result<Arc, AllocError>
    ensures { IfOk result (λ arc. arc ≡ leaving_arc code.now edge) }
{
    let number = point_number(code, edge.leave)?;
    Ok(Arc {
        from: edge.leave,
        to: edge.to,
        label: number,
    })
}

// The arcs of all edges.
pub(crate) fn arcs_of(alloc: Global, code: &[Instr], edges: &[Edge]) -> Result<Vec<Arc>, AllocError>
    ensures { IfOk result (λ arcs. arcs.items ≡ leaving_arcs code.now edges.now) }
{
    let mut arcs = Vec::new(alloc);
    for edge in edges {
        arcs.push(arc_of(code, *edge)?)?;
    }
    Ok(arcs)
}

// The arcs, turned round.
pub(crate) fn arcs_turned(alloc: Global, arcs: &[Arc]) -> Result<Vec<Arc>, AllocError>
    ensures { IfOk result (λ back. back.items ≡ map turned arcs.now) }
{
    let mut back = Vec::new(alloc);
    for arc in arcs {
        back.push(Arc {
            from: arc.to,
            to: arc.from,
            label: arc.label,
        })?;
    }
    Ok(back)
}
