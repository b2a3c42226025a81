// Which slots of a function are in registers.

ghost use Rattle.std.specs.Prelude.{◌≡◌, ◌≤◌, length, take, IfOk};
ghost use Rattle.shadow_place.specs.Allocation.{IsAllocation};
ghost use Rattle.shadow_place.specs.Placement.{AreAnalyses};

use crate::analyses::Analyses;
use crate::needs::slot_spans;
use crate::registers::{HOME_REGISTERS, own_registers};
use crate::shared::shared_registers;
use slot_code::Slot;
use std::alloc::{AllocError, Global};

// So many of the first slots have words of the frame whose numbers are below 256.
const NEAR_SLOTS: usize = 254;

// How many of so many slots are near.
fn near_count(slots: usize) -> usize
    ensures within { result ≤ slots }
    ensures few { result ≤ 254 }
{
    slots.min(NEAR_SLOTS)
}

// The first of these slots, so many.
fn first_slots(slots: &[Slot], many: usize) -> &[Slot]
    requires { many ≤ length slots.now }
    ensures { result.now ≡ take many slots.now }
{
    &slots[..many]
}

// The registers of a function's slots, 0 for none: each has one of its own where there are enough, else those share one whose
// spans don't meet.
pub(crate) fn registers_of(alloc: Global, known: &Analyses<'_>) -> Result<Vec<u8>, AllocError>
    requires { AreAnalyses known.now }
    ensures { IfOk result (λ registers. IsAllocation known.now.func.now known.now.lowered.now registers.items) }
{
    let slots = known.lowered.slots.as_slice();
    if slots.len() <= HOME_REGISTERS {
        let registers = own_registers(alloc, slots.len())?;
        return Ok(registers);
    }
    let many = near_count(slots.len());
    let near = first_slots(slots, many);
    let spans = slot_spans(
        alloc,
        known.func,
        known.graph,
        known.lowered,
        known.live,
        near,
    )?;
    let registers = shared_registers(alloc, spans.as_slice())?;
    Ok(registers)
}
