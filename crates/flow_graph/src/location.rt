// The locations of a function, its variables and their shadows, by their numbers.

ghost use Rattle.std.specs.Prelude.{◌≡◌, ◌≤◌, ◌^◌, ℕ, Some, None, map, slice_index, slice_get, IfOk, IfErr, MatchOption};
ghost use Rattle.std.specs.Option.{option_map};
ghost use Rattle.bril_tree.specs.Assigned.{operation_assigns};
ghost use Rattle.bril_tree.specs.FunctionForm.{listed};
ghost use Rattle.bril_tree.specs.Operand.{Variable, Shadow};
ghost use Rattle.flow_graph.specs.Location.{number_of, number_at};

use bril_tree::numbered::Instr;
use bril_tree::operation::Op;
use std::alloc::AllocError;

// The last variable whose locations have numbers of 32 bits. A function with more is taken to need more memory than there
// is.
const LAST_VARIABLE: u32 = u32::MAX / 2;

/// The number of a variable among a function's locations: twice its own. `AllocError` comes exactly for a variable of a
/// number from 2^31 on, which is taken to need more memory than there is. Takes no memory.
pub fn variable_number(x: u32) -> Result<u32, AllocError>
    ensures number { IfOk result (λ number. number ≡ number_of (Variable x)) }
    ensures fault { IfErr result (λ _. 2 ^ 32 ≤ number_of (Variable x)) }
{
    if x > LAST_VARIABLE {
        return Err(AllocError);
    }
    Ok(2 * x)
}

/// The number of a variable's shadow among a function's locations: one more than that of the variable. `AllocError` comes
/// exactly for a variable of a number from 2^31 on. Takes no memory.
pub fn shadow_number(x: u32) -> Result<u32, AllocError>
    ensures number { IfOk result (λ number. number ≡ number_of (Shadow x)) }
    ensures fault { IfErr result (λ _. 2 ^ 32 ≤ number_of (Shadow x)) }
{
    if x > LAST_VARIABLE {
        return Err(AllocError);
    }
    Ok(2 * x + 1)
}

// An argument of an operation, or 0 where there are too few.
pub(crate) fn operand(args: &[u32], k: usize) -> u32
    ensures { result ≡ slice_index args.now k }
{
    if k < args.len() { args[k] } else { 0 }
}

// The number of a destination, where there is one.
fn destination_number(dest: Option<u32>) -> Result<Option<u32>, AllocError>
    ensures number { IfOk result (λ number. number ≡ option_map number_of (slice_get (map Variable (listed dest)) 0)) }
    ensures fault { IfErr result (λ _. MatchOption (option_map number_of (slice_get (map Variable (listed dest)) 0)) ⊥ (λ number. 2 ^ 32 ≤ number)) }
{
    match dest {
        None => Ok(None),
        Some(x) => Ok(Some(variable_number(x)?)),
    }
}

// The number of the location that an operation assigns.
fn operation_number(op: Op, dest: Option<u32>, args: &[u32]) -> Result<Option<u32>, AllocError>
    ensures number { IfOk result (λ number. number ≡ option_map number_of (slice_get (operation_assigns op dest args.now) 0)) }
    ensures fault { IfErr result (λ _. MatchOption (option_map number_of (slice_get (operation_assigns op dest args.now) 0)) ⊥ (λ number. 2 ^ 32 ≤ number)) }
{
    match op {
        Op::Set => Ok(Some(shadow_number(operand(args, 0))?)),
        _ => destination_number(dest),
    }
}

/// The number of the location that an item assigns, and None exactly where it assigns none. `AllocError` comes exactly where
/// the number doesn't fit 32 bits. Takes no memory.
pub fn assigned_number(item: &Instr) -> Result<Option<u32>, AllocError>
    ensures number { IfOk result (λ number. number ≡ number_at (Some item.now)) }
    ensures fault { IfErr result (λ _. MatchOption (number_at (Some item.now)) ⊥ (λ number. 2 ^ 32 ≤ number)) }
{
    match item {
        Instr::Label(_) => Ok(None),
        Instr::Const { dest, .. } => Ok(Some(variable_number(*dest)?)),
        Instr::Act { dest, op, args, .. } => operation_number(*op, *dest, args.as_slice()),
    }
}

/// The number of the location that the item at a point assigns, and None exactly where it assigns none or the point is the
/// function's end. `AllocError` comes exactly where the number doesn't fit 32 bits. Takes no memory.
pub fn point_number(code: &[Instr], point: u32) -> Result<Option<u32>, AllocError>
    ensures number { IfOk result (λ number. number ≡ number_at (slice_get code.now point)) }
    ensures fault { IfErr result (λ _. MatchOption (number_at (slice_get code.now point)) ⊥ (λ number. 2 ^ 32 ≤ number)) }
{
    match code.get(point as usize) {
        None => Ok(None),
        Some(item) => assigned_number(item),
    }
}
