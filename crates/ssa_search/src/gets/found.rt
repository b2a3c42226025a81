// The labels at which each location is live.

ghost use Rattle.std.specs.Prelude.{◌≡◌, ◌<◌, ◌≤◌, ◌+◌, ◌^◌, ◌-◌, ◌++◌, ℕ, List, None, is_some, length, map, slice_index, IfOk, OnOk};
ghost use Rattle.std.specs.List.{All};
ghost use Rattle.bril_tree.specs.declared.numbered.Instr.{Instr};
ghost use Rattle.bril_tree.specs.Shape.{shape_fault_of};
ghost use Rattle.bril_tree.specs.Sites.{AreSitesSound};
ghost use Rattle.flow_graph.specs.Graph.{IsGraphOf};
ghost use Rattle.ssa_search.specs.accesses.Accesses.{AreBlocksOf};
ghost use Rattle.ssa_search.specs.gets.Found.{AddsFound, AreFoundBefore, IsBlank, found_at, with_values};
ghost use Rattle.ssa_laws.specs.reaching_definitions.Told.{LeadToLabels};

use crate::accesses::{Blocks, blocks_of};
use crate::placing::live_labels;
use bril_tree::numbered_function::Func;
use flow_graph::{Access, AccessLists, Graph};
use graph_search::{Reached, number_of_length};
use std::alloc::{AllocError, Global};

// Writes the points that assign a location first into the array, each at the head of its block.
fn write_firsts(first: &mut Vec<u32>, heads: &[u32], points: &[u32])
    requires points { All (λ point. point < length heads.now) points.now }
    requires heads { All (λ head. head < length first.old.items) heads.now }
    ensures { first.new.items ≡ with_values (λ point. point) heads.now points.now first.old.items }
{
    for point in points {
        first[heads[*point as usize] as usize] = *point;
    }
}

// Writes above all points into the array at the heads of these points' blocks.
fn erase_firsts(first: &mut Vec<u32>, heads: &[u32], points: &[u32])
    requires points { All (λ point. point < length heads.now) points.now }
    requires heads { All (λ head. head < length first.old.items) heads.now }
    ensures { first.new.items ≡ with_values (λ _. 4294967295) heads.now points.now first.old.items }
{
    for point in points {
        first[heads[*point as usize] as usize] = u32::MAX;
    }
}

// Adds a pair of each of these labels and the location.
fn push_found(found: &mut Vec<Access>, labels: &[u32], location: u32) -> Result<(), AllocError>
    ensures { OnOk result (found.new.items ≡ found.old.items ++ map (found_at location) labels.now) }
{
    for label in labels {
        found.push(Access {
            item: location,
            location: *label,
        })?;
    }
    Ok(())
}

// Adds the labels at which the location is live. The array `first` is blank before and behind.
fn search_location(
    alloc: Global,
    blocks: &Blocks,
    first: &mut Vec<u32>,
    reached: &mut Reached,
    found: &mut Vec<Access>,
    location: u32,
) -> Result<(), AllocError>
    requires nodes { reached.old.nodes ≡ blocks.now.arcs.nodes }
    requires long { length first.old.items ≡ blocks.now.arcs.nodes + 1 }
    requires blank { IsBlank first.old.items }
    ensures nodes { reached.new.nodes ≡ reached.old.nodes }
    ensures long { OnOk result (length first.new.items ≡ length first.old.items) }
    ensures blank { OnOk result (IsBlank first.new.items) }
    ensures found { OnOk result ((code : List Instr) → length code < 2 ^ 32 - 1 → LeadToLabels code → AreBlocksOf code blocks.now.heads.items blocks.now.arcs blocks.now.accesses.exposed.list blocks.now.accesses.firsts.list
        → AddsFound code location found.old.items found.new.items) }
{
    let seeds = blocks.accesses.exposed.items(alloc, location)?;
    let points = blocks.accesses.firsts.items(alloc, location)?;
    write_firsts(first, blocks.heads.as_slice(), points.as_slice());
    live_labels(reached, &blocks.arcs, seeds.as_slice(), first.as_slice())?;
    push_found(found, reached.found(), location)?;
    erase_firsts(first, blocks.heads.as_slice(), points.as_slice());
    Ok(())
}

// The pairs in rows by their labels. As many as 2^32 - 1 are taken to need more memory than there is.
fn label_rows(alloc: Global, found: Vec<Access>) -> Result<AccessLists, AllocError>
    ensures { IfOk result (λ rows. rows.list ≡ found.items) }
{
    number_of_length(found.len())?;
    AccessLists::of(alloc, found)
}

// The pairs of a reached label and a location that is live there, of a function whose locations have numbers below `locations`.
pub(crate) fn live_pairs(
    alloc: Global,
    func: &Func,
    graph: &Graph,
    locations: u32,
) -> Result<AccessLists, AllocError>
    requires shaped { shape_fault_of (is_some func.now.ret) func.now.code ≡ None }
    requires few { length func.now.code < 2 ^ 32 - 1 }
    requires graph { IsGraphOf func.now.code graph.now }
    requires sound { AreSitesSound func.now.code }
    ensures { IfOk result (λ rows. AreFoundBefore func.now.code locations rows.list) }
{
    let blocks = blocks_of(alloc, func, graph)?;
    let points = blocks.arcs.nodes();
    let mut reached = Reached::new(alloc, points)?;
    let mut first = vec![in alloc; u32::MAX; points + 1]?;
    let mut found = Vec::new(alloc);
    for location in 0..locations {
        search_location(
            alloc,
            &blocks,
            &mut first,
            &mut reached,
            &mut found,
            location,
        )?;
    }
    let rows = label_rows(alloc, found)?;
    Ok(rows)
}
