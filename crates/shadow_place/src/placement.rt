// Homes, and what is saved, for each function of a program.

ghost use Rattle.std.specs.Prelude.{◌≡◌, ◌<◌, ◌-◌, ◌^◌, length, IfOk};
ghost use Rattle.std.specs.List.{AllZip};
ghost use Rattle.live_sets.specs.Liveness.{TellsLive};
ghost use Rattle.slot_code.specs.Lowered.{IsLowered};
ghost use Rattle.shadow_place.specs.Placement.{FewAreInRegisters, HomesAreApart, HomesAreOwn, IsAcceptedLowered, IsPlacement, LiveAreApart, TellsAllSaved, TellsLiveIn};

use crate::allocation::registers_of;
use crate::analyses::Analyses;
use crate::homes::{shadow_homes, variable_homes};
use crate::placed::{FunctionHomes, Placed};
use crate::saved::saved_rows;
use bril_checker::Checked;
use bril_tree::numbered_function::Func;
use bril_tree::sequence::Seq;
use flow_graph::Graph;
use live_sets::Live;
use slot_code::{SlotFunction, Slots};
use std::alloc::{AllocError, Global};

// The homes of a function, and what the speculation of each of its `speculate` items saves.
fn place_function(
    alloc: Global,
    func: &Func,
    lowered: &SlotFunction,
    live: &Live,
) -> Result<FunctionHomes, AllocError>
    requires lowered { IsAcceptedLowered func.now lowered.now }
    requires few { length func.now.code < 2 ^ 32 - 1 }
    requires live { TellsLive func.now.code live.now }
    ensures { IfOk result (λ homes. IsPlacement func.now lowered.now homes) }
{
    let graph = Graph::of_sound(alloc, func)?;
    let known = Analyses {
        func,
        graph: &graph,
        lowered,
        live,
    };
    let registers = registers_of(alloc, &known)?;
    let numbers = lowered.shadow_numbers.as_slice();
    Ok(FunctionHomes {
        variables: variable_homes(alloc, registers.as_slice(), lowered.variables)?,
        shadows: shadow_homes(alloc, registers.as_slice(), numbers)?,
        saved: saved_rows(alloc, &known)?,
    })
}

/// The homes of the locations of a program, whose code over slots is `slots`, and which of them the speculation of each
/// `speculate` saves. `lives` tells of each function, in order, what is live in it. A location that is a slot is in a register,
/// one of 3, 4, 9, 11 to 16 and 18 to 31, or in its own word of the frame, which has the number of its slot and two more; no home
/// is lost that is needed, no two locations that are live at one point have one, and a function of at most 23 locations has all
/// of them in registers. An error means that there is no memory; a function with 2^32 locations or edges or more is taken to need
/// more.
pub fn place(
    alloc: Global,
    prog: &Checked,
    slots: &Slots,
    lives: &Seq<Live>,
) -> Result<Placed, AllocError>
    requires slots { IsLowered prog.now.prog slots.now }
    requires lives { AllZip TellsLiveIn prog.now.prog.funcs lives.now }
    ensures apart { IfOk result (HomesAreApart prog.now.prog) }
    ensures live { IfOk result (LiveAreApart prog.now.prog) }
    ensures saved { IfOk result (TellsAllSaved prog.now.prog) }
    ensures own { IfOk result (HomesAreOwn slots.now) }
    ensures registers { IfOk result (FewAreInRegisters prog.now.prog slots.now) }
{
    let slots = slots.funcs.as_slice();
    let lives = lives.as_slice();
    let mut funcs = Vec::new(alloc);
    for (number, func) in prog.prog().funcs.as_slice().iter().enumerate() {
        funcs.push(place_function(alloc, func, &slots[number], &lives[number])?)?;
    }
    Ok(Placed { funcs })
}
