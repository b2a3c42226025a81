// What an item copies and assigns, and whose shadow it names.

ghost use Rattle.std.specs.Prelude.{◌≡◌, slice_index};
ghost use Rattle.bril_tree.specs.Operand.{dest_of};
ghost use Rattle.bril_tree.specs.FunctionForm.{listed};
ghost use Rattle.variable_renaming.specs.Apart.{shadows_in, shadows_of, source_in, source_of};

use bril_tree::numbered::Instr;
use bril_tree::operation::Op;

/// The variable that an item assigns.
pub fn dest_of(item: &Instr) -> Option<u32>
    ensures { result ≡ dest_of item.now }
{
    match item {
        Instr::Label(_) => None,
        Instr::Const { dest, .. } => Some(*dest),
        Instr::Act { dest, .. } => *dest,
    }
}

/// The variable that an item copies, where it is a copy.
pub fn source_of(item: &Instr) -> Option<u32>
    ensures { result ≡ source_of item.now }
{
    match item {
        Instr::Label(_) => None,
        Instr::Const { .. } => None,
        Instr::Act { op, args, .. } => operation_source(*op, args.as_slice()),
    }
}

// The variable that an operation with these arguments copies.
fn operation_source(op: Op, args: &[u32]) -> Option<u32>
    ensures { result ≡ source_in op args.now }
{
    match op {
        Op::Id => Some(operand(args, 0)),
        _ => None,
    }
}

// An argument of an operation, or 0 where there are too few.
fn operand(args: &[u32], k: usize) -> u32
    ensures { result ≡ slice_index args.now k }
{
    if k < args.len() { args[k] } else { 0 }
}

/// The variable whose shadow an item names.
pub fn shadow_of(item: &Instr) -> Option<u32>
    ensures { listed result ≡ shadows_of item.now }
{
    match item {
        Instr::Label(_) => None,
        Instr::Const { .. } => None,
        Instr::Act { dest, op, args, .. } => operation_shadow(*op, *dest, args.as_slice()),
    }
}

// The variable whose shadow an operation names.
fn operation_shadow(op: Op, dest: Option<u32>, args: &[u32]) -> Option<u32>
    ensures { listed result ≡ shadows_in op dest args.now }
{
    match op {
        Op::Get => dest,
        Op::Set => Some(operand(args, 0)),
        _ => None,
    }
}
