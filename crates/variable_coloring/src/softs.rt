// Variables that had better not share a name: one is live where a guard leads, and the other is assigned in the speculation before
// it. A name that is both is saved at the `speculate` and put back by the guard.

use crate::loops::accesses_in_loops;
use crate::wishes::{Gathered, SITE, Wishes};
use bril_tree::edge::Edge;
use bril_tree::numbered::Instr;
use bril_tree::numbered_function::Func;
use bril_tree::operation::Op;
use flow_graph::{Access, AccessLists, Graph};
use graph_search::number_of_length;
use std::alloc::{AllocError, Global};
use variable_renaming::dest_of;

// How many items before a guard are looked at.
const SPAN: u32 = 256;

// How many variables, and then pairs, there are for each item of the function. What is more is left out, since these only guide a
// choice.
const MOST: usize = 16;

// For each point to which guards lead the variables that are assigned before them, `SITE` for each `speculate`, and pairs.
#[derive(Drop)]
pub(crate) struct Softs {
    outs: AccessLists,
    list: Gathered,
    most: usize,
}

// Adds what the item at the point assigns, for the point to which a guard leads.
fn push_dest(
    outs: &mut Vec<Access>,
    code: &[Instr],
    point: u32,
    to: u32,
) -> Result<(), AllocError> {
    if let Some(item) = code.get(point as usize) {
        if let Some(y) = dest_of(item) {
            outs.push(Access {
                item: y,
                location: to,
            })?;
        }
    }
    Ok(())
}

// Adds what is assigned between the `speculate` and the guard of an abort.
fn push_out(outs: &mut Vec<Access>, code: &[Instr], edge: Edge) -> Result<(), AllocError> {
    let from = edge.leave.max(edge.from.saturating_sub(SPAN));
    for point in from..edge.from {
        push_dest(outs, code, point, edge.to)?;
    }
    Ok(())
}

// Whether the item is a `speculate`.
fn is_site(item: &Instr) -> bool {
    match item {
        Instr::Act { op, .. } => *op == Op::Speculate,
        _ => false,
    }
}

// Adds `SITE` for each `speculate`, as if it were assigned before a guard that leads there.
fn push_sites(outs: &mut Vec<Access>, code: &[Instr]) -> Result<(), AllocError> {
    let mut point = 0u32;
    for item in code {
        if is_site(item) {
            outs.push(Access {
                item: SITE,
                location: point,
            })?;
        }
        point = point.saturating_add(1);
    }
    Ok(())
}

// Adds the pairs of x and of these variables.
fn push_pairs(list: &mut Gathered, x: u32, variables: &[u32]) -> Result<(), AllocError> {
    for y in variables {
        list.push(x, *y)?;
    }
    Ok(())
}

impl Softs {
    // No pair yet.
    pub(crate) fn of(alloc: Global, func: &Func, graph: &Graph) -> Result<Softs, AllocError> {
        let code = func.code.as_slice();
        let most = code.len().saturating_mul(MOST);
        let mut outs = Vec::new(alloc);
        for edge in graph.edges() {
            if edge.leave != edge.from && outs.len() < most {
                push_out(&mut outs, code, *edge)?;
            }
        }
        push_sites(&mut outs, code)?;
        number_of_length(outs.len())?;
        Ok(Softs {
            outs: AccessLists::of(alloc, outs)?,
            list: Gathered::new(alloc, accesses_in_loops(alloc, func, graph)?)?,
            most,
        })
    }

    // Adds the pairs of the variables of a block whose bits are set, which are live at the point.
    pub(crate) fn add(
        &mut self,
        alloc: Global,
        block: u32,
        word: u64,
        point: u32,
    ) -> Result<(), AllocError> {
        if self.outs.list().is_empty() {
            return Ok(());
        }
        let variables = self.outs.items(alloc, point)?;
        if variables.is_empty() {
            return Ok(());
        }
        for k in 0..64u32 {
            if (word >> k) & 1 == 1 && self.list.len() < self.most {
                let x = block.saturating_mul(64).saturating_add(k);
                push_pairs(&mut self.list, x, variables.as_slice())?;
            }
        }
        Ok(())
    }

    // What the choice of a class goes by.
    pub(crate) fn wishes(self, alloc: Global) -> Result<Wishes, AllocError> {
        let wishes = Wishes::of(alloc, self.list)?;
        Ok(wishes)
    }
}
