// Lists of numbers, and the items of constants.

ghost use Rattle.std.specs.Prelude.{◌≡◌, slice_index, IfOk};
ghost use Rattle.slot_code.specs.Lowered.{undefined_constant};

use crate::item::SlotItem;
use bril_tree::operation::Op;
use bril_tree::sequence::Seq;
use bril_tree::types::Ty;
use bril_tree::value::Value;
use bril_values::{Outcome, compute};
use std::alloc::{AllocError, Global};

// The number at a place of the list, 0 past its end.
pub fn number_at(numbers: &[u32], place: usize) -> u32
    ensures { result ≡ slice_index numbers.now place }
{
    match numbers.get(place) {
        Some(number) => *number,
        None => 0,
    }
}

// The same numbers in a list of their own.
pub fn copy_of(alloc: Global, numbers: &[u32]) -> Result<Seq<u32>, AllocError>
    ensures { IfOk result (λ copy. copy ≡ numbers.now) }
{
    let mut copy = Seq::new(alloc);
    for number in numbers {
        copy.push(*number)?;
    }
    Ok(copy)
}

// The zero of a type as the constant of a variable.
pub fn undefined_constant(ty: Option<Ty>, dest: u32) -> SlotItem
    ensures { result ≡ undefined_constant ty dest }
{
    match compute(Op::Undef, ty, Value::Int(0), Value::Int(0)) {
        Outcome::Yields(value) => SlotItem::Constant { dest, value },
        _ => SlotItem::Pass,
    }
}
