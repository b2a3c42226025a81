// Whether a program's words and its stack are within their bounds.

ghost use Rattle.std.specs.Prelude.{◌≡◌, ◌≢◌, ◌+◌, ◌*◌, ◌≤◌, ◌<◌, ℕ, List, Some, IsTrue, IfOk, IfErr, OnOk, length, slice_get};
ghost use Rattle.bril_tree.specs.declared.numbered_function.Func.{Func};
ghost use Rattle.program_numbers.specs.ProgramNumbers.{IsLargestFrame};
ghost use Rattle.std.specs.List.{list_all};
ghost use Rattle.rv64_emit.specs.Bounds.{AreLocationsKnown, bound_with, locations_at};
ghost use Rattle.rv64_emit.specs.Refusal.{capped, EmitRefuses};
ghost use Rattle.rv64_words.specs.declared.fault.EmitFault.TheVariants.{Memory};
ghost use Rattle.rv64_image_laws.specs.WordBounds as bounds;
ghost use Rattle.rv64_image_laws.specs.WordBounds.{operation_bound, word_bound, word_bounds, IsStackSize, IsWithin};

use bril_checker::Checked;
use bril_tree::limits::Limits;
use bril_tree::numbered::Instr;
use bril_tree::numbered_function::Func;
use bril_tree::operation::Op;
use bril_tree::program::Prog;
use rv64_words::fault::EmitFault;
use rv64_words::region::{MOST_STACK, MOST_WORDS};
use slot_code::SlotFunction;

// ---- words

// A number and eight for each of so many, or the greatest number of 64 bits where it is greater.
fn with_eights(number: u64, count: u64) -> u64
    ensures { result ≡ capped (number + 8 * count) }
{
    number.saturating_add(count.saturating_mul(8))
}

// The bound of an operation on so many arguments, in a function of so many locations.
fn operation_bound_of(operation: Op, locations: u64, args: u64) -> u64
    ensures { result ≡ capped (operation_bound operation locations args) }
{
    match operation {
        Op::Nop => 0,
        Op::Jmp => 2,
        Op::Commit => 4,
        Op::Br => 8,
        Op::Not | Op::Id | Op::Get | Op::Set | Op::Undef | Op::CharToInt | Op::Free => 12,
        Op::Div | Op::IntToChar => 24,
        Op::PtrAdd => 32,
        Op::Load | Op::Store => 48,
        Op::Call => with_eights(64, args),
        Op::Print => with_eights(8, args),
        Op::Speculate => with_eights(4, locations),
        Op::Guard => with_eights(12, locations),
        _ => 16,
    }
}

// The bound of an item, in a function of so many locations.
fn item_bound(item: &Instr, locations: u64) -> u64
    ensures { result ≡ capped (word_bound locations item.now) }
{
    match item {
        Instr::Label(_) => 0,
        Instr::Const { .. } => 12,
        Instr::Act { op, args, .. } => operation_bound_of(
            *op,
            locations,
            args.as_slice().len() as u64,
        ),
    }
}

// The bound of a function, if it has so many locations.
fn function_bound_of(func: &Func, locations: u64) -> u64
    ensures { result ≡ capped (bound_with locations func.now) }
{
    let mut bound: u64 = 40;
    for item in func.code.as_slice() {
        bound = bound.saturating_add(item_bound(item, locations));
    }
    bound
}

// The number of a function's locations by its code over slots, 0 where that isn't there.
fn locations_of(funcs: &[SlotFunction], number: usize) -> u64
    ensures { result ≡ locations_at funcs.now number }
{
    match funcs.get(number) {
        Some(func) => func.slots.as_slice().len() as u64,
        None => 0,
    }
}

// The sum of the bounds.
fn program_bound(prog: &Prog, funcs: &[SlotFunction]) -> u64
    requires { AreLocationsKnown prog.now funcs.now }
    ensures { result ≡ capped (word_bounds prog.now) }
{
    let mut bound: u64 = 32;
    for (number, func) in prog.funcs.as_slice().iter().enumerate() {
        bound = bound.saturating_add(function_bound_of(func, locations_of(funcs, number)));
    }
    bound
}

// ---- bounds that are one for all numbers of locations

// Whether the bound of an item is.
fn has_fixed_bound(item: &Instr) -> bool
    ensures { result ≡ bounds.has_fixed_bound item.now }
{
    match item {
        Instr::Act { op, .. } => match op {
            Op::Speculate | Op::Guard => false,
            _ => true,
        },
        _ => true,
    }
}

// Whether those of a function's items are.
fn has_fixed_items(func: &Func) -> bool
    ensures { result ≡ list_all bounds.has_fixed_bound func.now.code }
{
    func.code
        .as_slice()
        .iter()
        .all(|item| has_fixed_bound(item))
}

// Whether those of all items of a program are.
fn has_fixed_bounds(prog: &Prog) -> bool
    ensures { result ≡ bounds.has_fixed_bounds prog.now }
{
    prog.funcs
        .as_slice()
        .iter()
        .all(|func| has_fixed_items(func))
}

// ---- the stack

// The words of the largest frame.
fn largest_frame(checked: &Checked) -> u64
    ensures { IsLargestFrame checked.now.prog result }
{
    let mut most: u64 = 0;
    for number in 0..checked.prog().funcs.as_slice().len() {
        most = most.max(checked.frame_words(number as u32));
    }
    most
}

/// The words of the program's stack, if its words and its stack are within their bounds. The code over slots tells the numbers
/// of locations, where bounds depend on them. Takes no memory, and so is never out of it.
pub fn stack_within(
    checked: &Checked,
    funcs: &[SlotFunction],
    limits: Limits,
) -> Result<u32, EmitFault>
    requires { AreLocationsKnown checked.now.prog funcs.now }
    ensures within { IfOk result (λ _. IsWithin checked.now.prog limits) }
    ensures stack { IfOk result (IsStackSize checked.now.prog limits) }
    ensures fault { IfErr result (EmitRefuses checked.now.prog limits) }
    ensures memory { IfErr result (λ fault. fault ≢ Memory) }
{
    let words = program_bound(checked.prog(), funcs);
    if words > MOST_WORDS as u64 {
        return Err(EmitFault::CodeTooBig { words });
    }
    let words = (limits.frames as u64).saturating_mul(largest_frame(checked));
    if words > MOST_STACK as u64 {
        return Err(EmitFault::StackTooBig { words });
    }
    Ok(words as u32)
}

/// Tells whether a program's words and its stack are within their bounds, if the bounds of its items are one for all numbers of
/// locations. Of any other program it tells nothing. Takes no memory, and so is never out of it.
pub fn fixed_bounds_within(checked: &Checked, limits: Limits) -> Result<(), EmitFault>
    ensures within { OnOk result (IsTrue (bounds.has_fixed_bounds checked.now.prog) → IsWithin checked.now.prog limits) }
    ensures fault { IfErr result (EmitRefuses checked.now.prog limits) }
    ensures memory { IfErr result (λ fault. fault ≢ Memory) }
{
    if has_fixed_bounds(checked.prog()) {
        stack_within(checked, &[], limits)?;
    }
    Ok(())
}
