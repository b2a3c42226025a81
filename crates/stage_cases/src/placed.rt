// Homes of locations, and what speculations save of them.

ghost use Rattle.std.specs.Prelude.{◌<◌, ◌^◌, length};

use crate::first::first_function;
use crate::row::add_line;
use bril_checker::Checked;
use bril_tree::home::Home;
use bril_tree::numbered::VarInfo;
use bril_tree::place::Place;
use case_text::{LineFault, checked_of};
use shadow_place::{Placed, all_lives, place};
use slot_code::{Slot, SlotFunction, lower};
use std::alloc::{AllocError, Global};

/// Appends the home of each location of the first function of the source's program, and what each of its speculations saves.
pub fn add_placed(alloc: Global, source: &[u8], shown: &mut Vec<u8>) -> Result<(), LineFault>
    requires { length source.now < 2 ^ 32 }
{
    let checked = checked_of(alloc, source)?;
    let func = first_function(checked.prog())?;
    add_first(alloc, &checked, func.vars.as_slice(), shown)
}

// Appends the homes of the first function's locations, of which these are the variables, and what is saved of them.
fn add_first(
    alloc: Global,
    checked: &Checked,
    vars: &[VarInfo],
    shown: &mut Vec<u8>,
) -> Result<(), LineFault> {
    let slots = lower(alloc, checked)?;
    let lives = all_lives(alloc, checked)?;
    let placed = place(alloc, checked, &slots, &lives)?;
    let Some(lowered) = slots.funcs.as_slice().first() else {
        return Err(LineFault::Form);
    };
    add_slots(alloc, &placed, vars, lowered, shown)?;
    Ok(())
}

// Appends the homes of a function's slots, and which of them each of its speculations saves.
fn add_slots(
    alloc: Global,
    placed: &Placed,
    vars: &[VarInfo],
    lowered: &SlotFunction,
    shown: &mut Vec<u8>,
) -> Result<(), AllocError> {
    let slots = lowered.slots.as_slice();
    for slot in slots {
        add_home(alloc, placed, vars, *slot, shown)?;
    }
    let mut point = 0u32;
    for _item in lowered.code.as_slice() {
        add_site(alloc, placed, vars, slots, point, shown)?;
        point = point.saturating_add(1);
    }
    Ok(())
}

/// The place that a slot is.
pub fn place_of(slot: Slot) -> Place {
    match slot {
        Slot::Variable(x) => Place::Var(x),
        Slot::Shadow(x) => Place::Shadow(x),
    }
}

// Appends a line with the home of a slot.
fn add_home(
    alloc: Global,
    placed: &Placed,
    vars: &[VarInfo],
    slot: Slot,
    shown: &mut Vec<u8>,
) -> Result<(), AllocError> {
    let text = match placed.home(0, place_of(slot)) {
        Home::Reg(number) => format!(in alloc; "register {number}")?,
        Home::Frame(word) => format!(in alloc; "word {word}")?,
    };
    shown.extend_from_slice(text.as_bytes())?;
    add_name(vars, slot, shown)?;
    add_line("", shown)
}

// Appends a line with the slots that the speculation of the `speculate` at a point saves, where it saves some.
fn add_site(
    alloc: Global,
    placed: &Placed,
    vars: &[VarInfo],
    slots: &[Slot],
    site: u32,
    shown: &mut Vec<u8>,
) -> Result<(), AllocError> {
    let mut names = Vec::new(alloc);
    for slot in slots {
        if placed.saved(0, site, place_of(*slot)) {
            add_name(vars, *slot, &mut names)?;
        }
    }
    if names.is_empty() {
        return Ok(());
    }
    let text = format!(in alloc; "speculate {site}")?;
    shown.extend_from_slice(text.as_bytes())?;
    shown.extend_from_slice(names.as_slice())?;
    add_line("", shown)
}

// Appends a space and the name of a slot.
fn add_name(vars: &[VarInfo], slot: Slot, shown: &mut Vec<u8>) -> Result<(), AllocError> {
    match slot {
        Slot::Variable(x) => add_variable(vars, x, shown),
        Slot::Shadow(x) => {
            shown.extend_from_slice(b" shadow")?;
            add_variable(vars, x, shown)
        }
    }
}

// Appends a space and the name of a variable.
fn add_variable(vars: &[VarInfo], x: u32, shown: &mut Vec<u8>) -> Result<(), AllocError> {
    shown.extend_from_slice(b" ")?;
    match vars.get(x as usize) {
        None => Ok(()),
        Some(var) => shown.extend_from_slice(var.name.as_bytes()),
    }
}
