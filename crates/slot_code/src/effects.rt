// Items of shadows, memory and speculation, and copies.

ghost use Rattle.std.specs.Prelude.{◌≡◌};
ghost use Rattle.slot_code.specs.Lowered.{lowered_effect, lowered_given};

use crate::item::{Slot, SlotItem};
use crate::numbers::{number_at, undefined_constant};
use bril_tree::operation::Op;
use bril_tree::types::Ty;

// The item of an operation on shadows, memory or speculations, or of a copy; any other operation passes.
pub fn lower_effect(op: Op, dest: Option<u32>, ty: Option<Ty>, args: &[u32]) -> SlotItem
    ensures { result ≡ lowered_effect op dest ty args.now }
{
    match op {
        Op::Set => SlotItem::Copy {
            dest: Slot::Shadow(number_at(args, 0)),
            from: Slot::Variable(number_at(args, 1)),
        },
        Op::Free => SlotItem::Free {
            pointer: number_at(args, 0),
        },
        Op::Store => SlotItem::Store {
            pointer: number_at(args, 0),
            value: number_at(args, 1),
        },
        Op::Speculate => SlotItem::Speculate,
        Op::Commit => SlotItem::Commit,
        _ => match dest {
            Some(x) => lower_given(op, ty, args, x),
            None => SlotItem::Pass,
        },
    }
}

// The item of an operation that gives its destination a value and doesn't compute it; any other operation passes.
fn lower_given(op: Op, ty: Option<Ty>, args: &[u32], dest: u32) -> SlotItem
    ensures { result ≡ lowered_given op ty args.now dest }
{
    match op {
        Op::Id => SlotItem::Copy {
            dest: Slot::Variable(dest),
            from: Slot::Variable(number_at(args, 0)),
        },
        Op::Get => SlotItem::Copy {
            dest: Slot::Variable(dest),
            from: Slot::Shadow(dest),
        },
        Op::Undef => undefined_constant(ty, dest),
        Op::Alloc => SlotItem::Alloc {
            dest,
            count: number_at(args, 0),
        },
        Op::Load => SlotItem::Load {
            dest,
            pointer: number_at(args, 0),
        },
        _ => SlotItem::Pass,
    }
}
