// Which shadows some `set` writes.

ghost use Rattle.std.specs.Prelude.{◌≡◌, ◌||◌, ◌==◌, ℕ, ◌<◌, false, length, slice_index, slice_index_or, EachIndex, IfOk};
ghost use Rattle.std.specs.List.{list_any};
ghost use Rattle.bril_tree.specs.FrameWords.{is_number};
ghost use Rattle.ssa_exit.specs.Unssaed.{is_written, writes_shadow};

use bril_tree::numbered::Instr;
use bril_tree::numbered_function::Func;
use bril_tree::operation::Op;
use std::alloc::{AllocError, Global};

// The argument at a place; 0 where there are too few, and then the item's shape is wrong.
pub(crate) fn argument(args: &[u32], place: usize) -> u32
    ensures { result ≡ slice_index args.now place }
{
    if place < args.len() { args[place] } else { 0 }
}

// The variable whose shadow the item writes.
fn shadow_written(item: &Instr) -> Option<u32>
    ensures { (x : ℕ) → writes_shadow x item.now ≡ is_number x result }
{
    match item {
        Instr::Act {
            op: Op::Set,
            args,
            ..
        } => Some(argument(args.as_slice(), 0)),
        _ => None,
    }
}

// Marks the variable whose shadow the item writes.
fn mark_one(marks: &mut [bool], item: &Instr)
    ensures { EachIndex marks.old (λ x. slice_index_or marks.new x false
        ≡ (slice_index_or marks.old x false || writes_shadow x item.now)) }
{
    if let Some(x) = shadow_written(item) {
        if (x as usize) < marks.len() {
            marks[x as usize] = true;
        }
    }
}

// Marks each variable whose shadow some item writes.
fn mark_all(marks: &mut [bool], items: &[Instr])
    ensures { EachIndex marks.old (λ x. slice_index_or marks.new x false
        ≡ (slice_index_or marks.old x false || list_any (writes_shadow x) items.now)) }
{
    for item in items {
        mark_one(marks, item);
    }
}

// For each variable of the function whether some `set` writes its shadow.
pub(crate) fn written_shadows(alloc: Global, func: &Func) -> Result<Vec<bool>, AllocError>
    ensures { IfOk result (λ marks. (x : ℕ) → x < length func.now.vars → slice_index_or marks.items x false ≡ is_written func.now.code x) }
{
    let mut marks = vec![in alloc; false; func.vars.as_slice().len()]?;
    mark_all(&mut marks, func.code.as_slice());
    Ok(marks)
}
