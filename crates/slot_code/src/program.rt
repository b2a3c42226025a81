// The code over slots of a program.

ghost use Rattle.std.specs.Prelude.{◌≡◌, ◌-◌, ◌<◌, ◌^◌, ℕ, List, None, is_some, length, IfOk};
ghost use Rattle.std.specs.List.{AllZip};
ghost use Rattle.bril_tree.specs.declared.limits.Limits.{Limits};
ghost use Rattle.bril_tree.specs.declared.value.Value.{Value};
ghost use Rattle.bril_tree.specs.FrameWords.{AreFrameWords};
ghost use Rattle.bril_tree.specs.Run.{state_after};
ghost use Rattle.bril_tree.specs.Shape.{shape_fault_of};
ghost use Rattle.bril_tree.specs.Sites.{AreSitesSound};
ghost use Rattle.bril_tree.specs.State.{State};
ghost use Rattle.bril_tree.specs.Step.{step};
ghost use Rattle.slot_code.specs.Lowered.{IsLowered, IsLoweredFunction};
ghost use Rattle.slot_code.specs.Meaning.{slot_step, slot_state_after};

use crate::depths::{depths_of, newest_of};
use crate::items::lower_items;
use crate::numbering::{all_slots, shadow_numbers, used_shadows};
use crate::slots::{SlotFunction, Slots};
use bril_checker::Checked;
use bril_tree::numbered_function::Func;
use bril_tree::sequence::Seq;
use flow_graph::Graph;
use std::alloc::{AllocError, Global};

/// The code over slots of an accepted program: its functions in their order, each item with the numbers of its variables and
/// of the items to which it goes. It does what the program does, step by step, as the Bril documentation says. An error
/// means that there is no memory.
pub fn lower(alloc: Global, checked: &Checked) -> Result<Slots, AllocError>
    ensures code { IfOk result (IsLowered checked.now.prog) }
    ensures steps { IfOk result (λ slots. (limits : Limits) (s : State) → slot_step checked.now.prog slots limits s ≡ step checked.now.prog limits s) }
    ensures states { IfOk result (λ slots. (limits : Limits) (args : List Value) (n : ℕ)
        → slot_state_after checked.now.prog slots limits args n ≡ state_after checked.now.prog limits args n) }
{
    Ok(Slots {
        funcs: lower_functions(alloc, checked)?,
        main: checked.prog().main,
    })
}

// The functions of a program over slots.
fn lower_functions(alloc: Global, checked: &Checked) -> Result<Seq<SlotFunction>, AllocError>
    ensures { IfOk result (λ funcs. AllZip IsLoweredFunction checked.now.prog.funcs funcs) }
{
    let mut funcs = Seq::new(alloc);
    for (number, func) in checked.prog().funcs.as_slice().iter().enumerate() {
        let words = checked.frame_words(number as u32);
        funcs.push(lower_function(alloc, func, words)?)?;
    }
    Ok(funcs)
}

// A function over slots, whose frame has so many words.
fn lower_function(alloc: Global, func: &Func, words: u64) -> Result<SlotFunction, AllocError>
    requires shaped { shape_fault_of (is_some func.now.ret) func.now.code ≡ None }
    requires few { length func.now.code < 2 ^ 32 - 1 }
    requires sound { AreSitesSound func.now.code }
    requires words { AreFrameWords func.now words }
    ensures { IfOk result (IsLoweredFunction func.now) }
{
    let points = func.label_points(alloc)?;
    let code = lower_items(alloc, func, points.as_slice())?;
    let variables = func.vars.as_slice().len();
    let used = used_shadows(alloc, variables, code.as_slice())?;
    let graph = Graph::of_sound(alloc, func)?;
    Ok(SlotFunction {
        args: func.args,
        variables,
        slots: all_slots(alloc, used.as_slice())?,
        shadow_numbers: shadow_numbers(alloc, used.as_slice())?,
        depths: depths_of(alloc, func, &graph)?,
        newest: newest_of(alloc, func, &graph)?,
        words,
        code,
    })
}
