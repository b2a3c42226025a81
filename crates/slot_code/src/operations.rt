// The operations that compute.

ghost use Rattle.std.specs.Prelude.{◌≡◌, slice_index};
ghost use Rattle.slot_code.specs.Lowered.{lowered_plain, with_dest};
ghost use Rattle.slot_code.specs.declared.item.SlotItem.TheVariants as item;

use crate::effects::lower_effect;
use crate::item::SlotItem;
use crate::numbers::number_at;
use bril_tree::operation::Op;
use bril_tree::operators::{BinaryOp, UnaryOp, binary_of, unary_of};
use bril_tree::types::Ty;

// The item of an operation that goes on to the next item, other than calls and output; any other operation passes.
pub fn lower_plain(op: Op, dest: Option<u32>, ty: Option<Ty>, args: &[u32]) -> SlotItem
    ensures { result ≡ lowered_plain op dest ty args.now }
{
    match binary_of(op) {
        Some(operation) => lower_binary(operation, dest, args),
        None => match unary_of(op) {
            Some(operation) => lower_unary(operation, dest, args),
            None => lower_effect(op, dest, ty, args),
        },
    }
}

// An operation on two variables; without a destination it passes.
fn lower_binary(operation: BinaryOp, dest: Option<u32>, args: &[u32]) -> SlotItem
    ensures { result ≡ with_dest dest (λ x. item.Binary operation x (slice_index args.now 0) (slice_index args.now 1)) }
{
    match dest {
        Some(dest) => SlotItem::Binary {
            operation,
            dest,
            first: number_at(args, 0),
            second: number_at(args, 1),
        },
        None => SlotItem::Pass,
    }
}

// An operation on one variable; without a destination it passes.
fn lower_unary(operation: UnaryOp, dest: Option<u32>, args: &[u32]) -> SlotItem
    ensures { result ≡ with_dest dest (λ x. item.Unary operation x (slice_index args.now 0)) }
{
    match dest {
        Some(dest) => SlotItem::Unary {
            operation,
            dest,
            operand: number_at(args, 0),
        },
        None => SlotItem::Pass,
    }
}
