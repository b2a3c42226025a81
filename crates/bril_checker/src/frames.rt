// The words of a function's frame.

ghost use Rattle.std.specs.Prelude.{◌≡◌, ◌^◌, ◌-◌, ◌<◌, ◌≤◌, ◌+◌, ◌*◌, ◌||◌, ℕ, List, length, slice_index_or, Bool, false, count_by, EachIndex, IfOk};
ghost use Rattle.std.specs.List.{list_any, range_with_len};
ghost use Rattle.bril_tree.specs.FrameWords.{AreFrameWords, IsDepth, is_number, names_shadow, frame_head};
ghost use Rattle.bril_tree.specs.Sites.{AreSitesSound};
ghost use Rattle.flow_graph.specs.Graph.{IsGraphOf};

use crate::walks::open_sites;
use bril_tree::numbered::{Instr, VarInfo};
use bril_tree::numbered_function::Func;
use bril_tree::operation::Op;
use flow_graph::Graph;
use std::alloc::{AllocError, Global};

// The variable whose shadow a `get` or a `set` names; a `set` without arguments, whose shape is wrong, has variable 0.
fn shadow_named(item: &Instr) -> Option<u32>
    ensures { (x : ℕ) → names_shadow x item.now ≡ is_number x result }
{
    match item {
        Instr::Act {
            dest,
            op: Op::Get,
            ..
        } => *dest,
        Instr::Act {
            op: Op::Set,
            args,
            ..
        } => match args.as_slice().first() {
            None => Some(0),
            Some(x) => Some(*x),
        },
        _ => None,
    }
}

// Marks the variable whose shadow the item names.
fn mark_one(marks: &mut [bool], item: &Instr)
    ensures { EachIndex marks.old (λ x. slice_index_or marks.new x false
        ≡ (slice_index_or marks.old x false || names_shadow x item.now)) }
{
    if let Some(x) = shadow_named(item) {
        if (x as usize) < marks.len() {
            marks[x as usize] = true;
        }
    }
}

// Marks each variable whose shadow some item names.
fn mark_all(marks: &mut [bool], items: &[Instr])
    ensures { EachIndex marks.old (λ x. slice_index_or marks.new x false
        ≡ (slice_index_or marks.old x false || list_any (names_shadow x) items.now)) }
{
    for item in items {
        mark_one(marks, item);
    }
}

// How many of the marks are set.
fn count_marks(marks: &[bool]) -> usize
    ensures { result ≡ count_by (λ mark. mark) marks.now }
{
    marks.iter().filter(|mark| **mark).count()
}

// Marks each variable whose shadow some item names, where none is marked, and counts them.
fn count_named(marks: &mut [bool], items: &[Instr]) -> usize
    requires { EachIndex marks.old (λ x. slice_index_or marks.old x false ≡ false) }
    ensures count { result
        ≡ count_by (λ x. list_any (names_shadow x) items.now) (range_with_len 0 (length marks.old)) }
    ensures few { result ≤ length marks.old }
{
    mark_all(marks, items);
    count_marks(marks)
}

// How many shadows some `get` or `set` of the function names.
fn shadow_count(alloc: Global, func: &Func) -> Result<usize, AllocError>
    ensures few { IfOk result (λ count. count ≤ length func.now.vars) }
    ensures count { IfOk result (λ count. count
        ≡ count_by (λ x. list_any (names_shadow x) func.now.code) (range_with_len 0 (length func.now.vars))) }
{
    let mut marks = vec![in alloc; false; func.vars.as_slice().len()]?;
    Ok(count_named(&mut marks, func.code.as_slice()))
}

// The greatest number of sites that are open at a point.
fn depth(func: &Func, graph: &Graph) -> usize
    requires few { length func.now.code < 2 ^ 32 - 1 }
    requires graph { IsGraphOf func.now.code graph.now }
    requires sound { AreSitesSound func.now.code }
    ensures depth { IsDepth func.now.code result }
    ensures few { result ≤ 8 }
{
    let end = func.code.as_slice().len() as u32;
    let mut depth: usize = 0;
    for point in 0..end + 1 {
        depth = depth.max(open_sites(graph, point));
    }
    depth
}

// The words of a frame with these variables, with so many shadows, and at most so many open sites.
fn words_of(vars: &[VarInfo], shadows: usize, depth: usize) -> u64
    requires shadows { shadows ≤ length vars.now }
    requires depth { depth ≤ 8 }
    ensures { result ≡ frame_head + (length vars.now + shadows) * (1 + depth) }
{
    2 + (vars.len() as u64 + shadows as u64) * (1 + depth as u64)
}

/// The words of the function's frame: two, and one for each variable and each shadow that some `get` or `set` names,
/// as it is and as it was at each open site.
pub fn frame_words(alloc: Global, func: &Func, graph: &Graph) -> Result<u64, AllocError>
    requires few { length func.now.code < 2 ^ 32 - 1 }
    requires graph { IsGraphOf func.now.code graph.now }
    requires sound { AreSitesSound func.now.code }
    ensures { IfOk result (AreFrameWords func.now) }
{
    let shadows = shadow_count(alloc, func)?;
    Ok(words_of(func.vars.as_slice(), shadows, depth(func, graph)))
}
