// Flow graphs.

ghost use Rattle.std.specs.Prelude.{◌≡◌, ◌+◌, ◌<◌, ◌^◌, length};

use crate::first::first_function;
use crate::row::add_line;
use case_text::{LineFault, program_of};
use flow_graph::{Graph, GraphFault};
use std::alloc::{AllocError, Global};

/// Appends the flow graph of the first function of the source's program, or the point at which the open sites fail.
pub fn add_graph(alloc: Global, source: &[u8], shown: &mut Vec<u8>) -> Result<(), LineFault>
    requires { length source.now < 2 ^ 32 }
{
    let prog = program_of(alloc, source)?;
    let func = first_function(&prog)?;
    let count = func.code.as_slice().len();
    if func.shape_fault().is_some() {
        return Err(LineFault::Form);
    }
    match Graph::of(alloc, func) {
        Err(GraphFault::Memory) => return Err(LineFault::Memory),
        Err(GraphFault::Nest { point }) => {
            let line = format!(in alloc; "the open sites fail at {point}")?;
            add_line(line.as_str(), shown)?;
        }
        Ok(graph) => {
            add_edges(alloc, &graph, shown)?;
            add_points(alloc, &graph, count as u32, shown)?;
        }
    }
    Ok(())
}

// Appends the edges.
fn add_edges(alloc: Global, graph: &Graph, shown: &mut Vec<u8>) -> Result<(), AllocError> {
    for edge in graph.edges() {
        let from = edge.from;
        let leave = edge.leave;
        let to = edge.to;
        let line = format!(in alloc; "edge {from} {leave} {to}")?;
        add_line(line.as_str(), shown)?;
    }
    Ok(())
}

// Appends what is told of each point, the last of which is `end`.
fn add_points(alloc: Global, graph: &Graph, end: u32, shown: &mut Vec<u8>) -> Result<(), AllocError>
    requires { length graph.now.sites ≡ end + 1 }
{
    for point in 0..=end {
        let reached = graph.reach(point);
        let sites = graph.sites(point);
        let line = format!(in alloc; "point {point} {reached} {sites:?} from")?;
        shown.extend_from_slice(line.as_bytes())?;
        for edge in graph.preds(point) {
            let from = edge.from;
            let word = format!(in alloc; " {from}")?;
            shown.extend_from_slice(word.as_bytes())?;
        }
        add_line("", shown)?;
    }
    Ok(())
}
