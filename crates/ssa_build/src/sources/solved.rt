// Which definition stands for each once the trivial `get`s are left out.

ghost use Rattle.std.specs.Prelude.{◌≡◌, ◌+◌, IfOk, length, slice_index};
ghost use Rattle.flow_graph.specs.Graph.{IsGraphOf};
ghost use Rattle.ssa_search.specs.gets.Wants.{gets_of};
ghost use Rattle.ssa_build.specs.operands.Operands.{base_of};
ghost use Rattle.ssa_build.specs.sources.Sources.{AreRepresentatives};
ghost use Rattle.ssa_build.specs.sources.Sweeping.{IsSweepable};

use crate::sources::sweep::operands_of;
use crate::trivial_phis::representatives;
use bril_tree::numbered_function::Func;
use flow_graph::Graph;
use ssa_search::gets::Wants;
use std::alloc::{AllocError, Global};

/// For each definition of a function, by its number, the one that stands for it once the trivial `get`s are left out; a `get` stays
/// exactly where it stands for itself. Takes time in proportion to the items and to what the `get`s are set from, but for the looks
/// that `representatives` of `trivial_phis` tells of. The only error is want of memory.
pub fn solved_gets(
    alloc: Global,
    func: &Func,
    graph: &Graph,
    wants: &Wants,
) -> Result<Vec<u32>, AllocError>
    requires sweepable { IsSweepable func.now wants.now }
    requires graph { IsGraphOf func.now.code graph.now }
    ensures long { IfOk result (λ find. length find.items ≡ base_of func.now.code func.now.args + length wants.now.list) }
    ensures solved { IfOk result (λ find. AreRepresentatives func.now.code func.now.args (gets_of wants.now) (length find.items) (λ d. slice_index find.items d)) }
{
    let operands = operands_of(alloc, func, graph, wants)?;
    let base = func.args + func.code.as_slice().len() as u32;
    let find = representatives(alloc, &operands, base)?;
    Ok(find)
}
