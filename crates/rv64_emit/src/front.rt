// What an image is laid out from: code over slots, the homes of the slots, and what is live.

ghost use Rattle.std.specs.Prelude.{IfOk, IfErr};
ghost use Rattle.rv64_emit.specs.Front.{IsFrontOf};
ghost use Rattle.rv64_emit.specs.Refusal.{EmitRefuses};

use crate::bounds::{fixed_bounds_within, stack_within};
use bril_checker::Checked;
use bril_tree::limits::Limits;
use bril_tree::sequence::Seq;
use live_sets::Live;
use rv64_words::fault::EmitFault;
use shadow_place::{Placed, all_lives, place};
use slot_code::{Slots, lower};
use std::alloc::Global;

/// The code of a program over slots, what is live in each of its functions, a placement of the slots, and how many words the
/// stack has.
#[derive(Drop)]
pub struct Front {
    pub slots: Slots,
    pub lives: Seq<Live>,
    pub placed: Placed,
    pub stack: u32,
}

/// From what the image of an accepted program is laid out, where both bounds hold; else the bound that is passed, by `emit`.
pub fn front_of(alloc: Global, prog: &Checked, limits: Limits) -> Result<Front, EmitFault>
    ensures made { IfOk result (IsFrontOf prog.now.prog limits) }
    ensures fault { IfErr result (EmitRefuses prog.now.prog limits) }
{
    fixed_bounds_within(prog, limits)?;
    let slots = lower(alloc, prog)?;
    let stack = stack_within(prog, slots.funcs.as_slice(), limits)?;
    let lives = all_lives(alloc, prog)?;
    let placed = place(alloc, prog, &slots, &lives)?;
    Ok(Front {
        slots,
        lives,
        placed,
        stack,
    })
}
