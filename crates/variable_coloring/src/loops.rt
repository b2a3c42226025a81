// How often items in loops access each variable.

use bril_tree::numbered::Instr;
use bril_tree::numbered_function::Func;
use flow_graph::Graph;
use std::alloc::{AllocError, Global};
use variable_renaming::dest_of;

// Adds one to the number at a place, if there is such a place.
fn count(numbers: &mut Vec<u32>, place: u32) {
    let k = place as usize;
    if k < numbers.len() {
        numbers[k] = numbers[k].saturating_add(1);
    }
}

// The number at a place, or 0.
pub(crate) fn number_at(numbers: &[u32], place: u32) -> u32 {
    match numbers.get(place as usize) {
        None => 0,
        Some(number) => *number,
    }
}

// Counts what the item accesses.
fn count_item(numbers: &mut Vec<u32>, item: &Instr) {
    if let Some(x) = dest_of(item) {
        count(numbers, x);
    }
    if let Instr::Act { args, .. } = item {
        for x in args.as_slice() {
            count(numbers, *x);
        }
    }
}

// How often the items that an edge back leads over access each variable.
pub(crate) fn accesses_in_loops(
    alloc: Global,
    func: &Func,
    graph: &Graph,
) -> Result<Vec<u32>, AllocError> {
    let code = func.code.as_slice();
    let mut starts = vec![in alloc; 0u32; code.len()]?;
    let mut ends = vec![in alloc; 0u32; code.len()]?;
    for edge in graph.edges() {
        if edge.to <= edge.from {
            count(&mut starts, edge.to);
            count(&mut ends, edge.from);
        }
    }
    let mut numbers = vec![in alloc; 0u32; func.vars.as_slice().len()]?;
    let mut depth = 0u32;
    let mut point = 0u32;
    for item in code {
        depth = depth.saturating_add(number_at(starts.as_slice(), point));
        if depth > 0 {
            count_item(&mut numbers, item);
        }
        depth = depth.saturating_sub(number_at(ends.as_slice(), point));
        point = point.saturating_add(1);
    }
    Ok(numbers)
}
