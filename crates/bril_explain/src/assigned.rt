// Variables that nothing assigns.

ghost use Rattle.std.specs.Prelude.{◌≡◌, slice_get};
ghost use Rattle.std.specs.Option.{option_copied};
ghost use Rattle.bril_explain.specs.Words.{never_assigned, untyped, untyped_among, untyped_of};

use bril_checker::CheckFault;
use bril_tree::numbered::{Instr, VarInfo};
use bril_tree::program::Prog;

// The variable that an item with a fault of its types reads, and that nothing assigns.
pub fn never_assigned(program: &Prog, fault: CheckFault) -> Option<&[u8]>
    ensures { option_copied result ≡ never_assigned program.now fault }
{
    match fault {
        CheckFault::Types { func, item } => untyped_of(program, func, item),
        _ => None,
    }
}

// The first variable without a type that an item of a function reads.
fn untyped_of(program: &Prog, func: u32, item: u32) -> Option<&[u8]>
    ensures { option_copied result ≡ untyped_of (slice_get program.now.funcs func) item }
{
    let func = program.funcs.as_slice().get(func as usize)?;
    match func.code.as_slice().get(item as usize)? {
        Instr::Act { args, .. } => untyped_among(func.vars.as_slice(), args.as_slice()),
        Instr::Label(_) | Instr::Const { .. } => None,
    }
}

// The first of these variables that has no type.
fn untyped_among<'v>(vars: &'v [VarInfo], args: &[u32]) -> Option<&'v [u8]>
    ensures { option_copied result ≡ untyped_among vars.now args.now }
{
    let mut rest = args;
    while let Some((arg, others)) = rest.split_first() {
        if let Some(name) = untyped(vars, *arg) {
            return Some(name);
        }
        rest = others;
    }
    None
}

// The name of a variable that has no type.
fn untyped(vars: &[VarInfo], variable: u32) -> Option<&[u8]>
    ensures { option_copied result ≡ untyped (slice_get vars.now variable) }
{
    let variable = vars.get(variable as usize)?;
    match variable.ty {
        Some(_) => None,
        None => Some(variable.name.as_bytes()),
    }
}
