// The code of a function, item by item.

ghost use Rattle.std.specs.Prelude.{◌≡◌, ◌<◌, All, length, map, slice_get, slice_index, IfOk};
ghost use Rattle.bril_tree.specs.Labels.{IsLabelTable};
ghost use Rattle.bril_tree.specs.Step.{point_of};
ghost use Rattle.flow_graph.specs.Branches.{label_count, HasLabels};
ghost use Rattle.slot_code.specs.Lowered.{lowered_item, lowered_jump};

use crate::item::SlotItem;
use crate::kinds::printed_args;
use crate::numbers::{copy_of, number_at};
use crate::operations::lower_plain;
use bril_tree::numbered::Instr;
use bril_tree::numbered_function::Func;
use bril_tree::operation::Op;
use bril_tree::sequence::Seq;
use std::alloc::{AllocError, Global};

// The items of a function. `points` has the point of each label.
pub fn lower_items(alloc: Global, func: &Func, points: &[u32]) -> Result<Seq<SlotItem>, AllocError>
    requires placed { IsLabelTable func.now.code points.now }
    requires labelled { All (HasLabels (length points.now)) func.now.code }
    ensures { IfOk result (λ items. items ≡ map (lowered_item func.now) func.now.code) }
{
    let mut items = Seq::new(alloc);
    for item in func.code.as_slice() {
        items.push(lower_item(alloc, func, points, item)?)?;
    }
    Ok(items)
}

// An item of the function.
fn lower_item(
    alloc: Global,
    func: &Func,
    points: &[u32],
    item: &Instr,
) -> Result<SlotItem, AllocError>
    requires placed { IsLabelTable func.now.code points.now }
    requires labelled { HasLabels (length points.now) item.now }
    ensures { IfOk result (λ made. made ≡ lowered_item func.now item.now) }
{
    match item {
        Instr::Label(_) => Ok(SlotItem::Pass),
        Instr::Const { dest, value, .. } => Ok(SlotItem::Constant {
            dest: *dest,
            value: value.value(),
        }),
        Instr::Act {
            dest,
            op: Op::Call,
            args,
            funcs,
            ..
        } => Ok(SlotItem::Call {
            dest: *dest,
            function: number_at(funcs.as_slice(), 0),
            args: copy_of(alloc, args.as_slice())?,
        }),
        Instr::Act {
            op: Op::Ret,
            args,
            ..
        } => Ok(SlotItem::Return {
            value: first_of(args.as_slice()),
        }),
        Instr::Act {
            op: Op::Print,
            args,
            ..
        } => Ok(SlotItem::Print {
            args: printed_args(alloc, func.vars.as_slice(), args.as_slice())?,
        }),
        Instr::Act {
            dest,
            ty,
            op,
            args,
            labels,
            ..
        } => Ok(
            match lower_jump(func, points, *op, args.as_slice(), labels.as_slice()) {
                Some(jump) => jump,
                None => lower_plain(*op, *dest, *ty, args.as_slice()),
            },
        ),
    }
}

// The first of the numbers, where there is one.
fn first_of(numbers: &[u32]) -> Option<u32>
    ensures { result ≡ slice_get numbers.now 0 }
{
    match numbers.first() {
        Some(number) => Some(*number),
        None => None,
    }
}

// The item of an operation that goes to labels; None exactly for any other operation.
fn lower_jump(func: &Func, points: &[u32], op: Op, args: &[u32], labels: &[u32]) -> Option<SlotItem>
    requires placed { IsLabelTable func.now.code points.now }
    requires counted { label_count op ≡ length labels.now }
    requires known { All (λ l. l < length points.now) labels.now }
    ensures { result ≡ lowered_jump func.now op args.now labels.now }
{
    match op {
        Op::Jmp => Some(SlotItem::Jump {
            to: target(func, points, labels[0]),
        }),
        Op::Br => Some(SlotItem::Branch {
            condition: number_at(args, 0),
            then_to: target(func, points, labels[0]),
            else_to: target(func, points, labels[1]),
        }),
        Op::Guard => Some(SlotItem::Guard {
            condition: number_at(args, 0),
            abort_to: target(func, points, labels[0]),
        }),
        _ => None,
    }
}

// The point of a label of the function.
fn target(func: &Func, points: &[u32], label: u32) -> u32
    requires placed { IsLabelTable func.now.code points.now }
    requires known { label < length points.now }
    ensures { result ≡ point_of label func.now.code }
{
    points[label as usize]
}
