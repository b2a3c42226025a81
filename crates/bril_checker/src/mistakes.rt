// The first item of a function that doesn't meet its row.

ghost use Rattle.std.specs.Prelude.{◌≡◌, ◌^◌, ◌<◌, [], ◌∷◌, length, map, is_some, not, All, MatchOption};
ghost use Rattle.std.specs.List.{position};
ghost use Rattle.std.specs.Option.{option_map};
ghost use Rattle.bril_tree.specs.Typing.{variable_type, is_call_shaped as call_is_shaped, print_fault, wrong_unless, type_fault};
ghost use Rattle.bril_checker.specs.Faults.{AreShaped, IsFirstMisshapen, IsFirstMistyped, IsTyped};
ghost use Rattle.bril_checker.specs.Mistakes.{meaning};

use crate::operands::{
    is_action_typed, is_call_shaped, is_dest_typed, is_literal_typed, variable_type,
};
use crate::types::is_pointer;
use bril_tree::numbered::Instr;
use bril_tree::numbered_function::Func;
use bril_tree::operation::Op;
use bril_tree::program::Prog;
use bril_tree::types::Ty;

// What is wrong with an item's types: an operand isn't of its type, or a pointer is printed.
#[derive(Clone, Copy, Drop)]
pub enum Mistake {
    WrongType,
    PrintsPointer,
}

// An item and what is wrong with its types.
#[derive(Clone, Copy, Drop)]
pub struct Mistyped {
    pub item: u32,
    pub mistake: Mistake,
}

// ---- shapes

// The first of the items that is a `call` which doesn't fit the called function.
fn first_misfit_call(prog: &Prog, func: &Func, items: &[Instr]) -> Option<u32>
    requires { length items.now < 2 ^ 32 }
    ensures { result ≡ position (λ item. not (call_is_shaped prog.now func.now item)) items.now }
{
    for (number, item) in items.iter().enumerate() {
        if !is_call_shaped(prog, func, item) {
            return Some(number as u32);
        }
    }
    None
}

// The first item that hasn't the shape of its operation or, where it calls, that of the called function.
pub fn first_misshapen(prog: &Prog, func: &Func) -> Option<u32>
    requires { length func.now.code < 2 ^ 32 }
    ensures { MatchOption result (AreShaped prog.now func.now) (IsFirstMisshapen prog.now func.now) }
{
    match func.shape_fault() {
        None => first_misfit_call(prog, func, func.code.as_slice()),
        Some(item) => {
            match first_misfit_call(prog, func, &func.code.as_slice()[..item as usize]) {
                None => Some(item),
                Some(call) => Some(call),
            }
        }
    }
}

// ---- types

// What is wrong with an argument of a `print`.
fn printed_mistake(ty: Option<Ty>) -> Option<Mistake>
    ensures { option_map meaning result ≡ print_fault (ty ∷ []) }
{
    match ty {
        None => Some(Mistake::WrongType),
        Some(ty) => is_pointer(ty).then_some(Mistake::PrintsPointer),
    }
}

// What is wrong with the first argument of a `print` that has no type or is a pointer.
fn print_mistake(func: &Func, args: &[u32]) -> Option<Mistake>
    ensures { option_map meaning result ≡ print_fault (map (variable_type func.now.vars) args.now) }
{
    for x in args {
        let mistake = printed_mistake(variable_type(func, *x));
        if mistake.is_some() {
            return mistake;
        }
    }
    None
}

// A wrong type, unless it is right.
fn wrong_unless(right: bool) -> Option<Mistake>
    ensures { option_map meaning result ≡ wrong_unless right }
{
    (!right).then_some(Mistake::WrongType)
}

// What is wrong with an item's types.
fn mistake_of(prog: &Prog, func: &Func, item: &Instr) -> Option<Mistake>
    ensures { option_map meaning result ≡ type_fault prog.now func.now item.now }
{
    match item {
        Instr::Label(_) => None,
        Instr::Const { dest, ty, value } => wrong_unless(
            is_dest_typed(prog, func, Some(*dest), Some(*ty)) && is_literal_typed(*value, *ty),
        ),
        Instr::Act {
            op: Op::Print,
            args,
            ..
        } => print_mistake(func, args.as_slice()),
        Instr::Act {
            dest,
            ty,
            op,
            args,
            funcs,
            ..
        } => wrong_unless(
            is_dest_typed(prog, func, *dest, *ty)
                && is_action_typed(prog, func, *op, *ty, args.as_slice(), funcs.as_slice()),
        ),
    }
}

// The first item whose types are wrong.
pub fn first_mistyped(prog: &Prog, func: &Func) -> Option<Mistyped>
    requires { length func.now.code < 2 ^ 32 }
    ensures { MatchOption result
        (All (IsTyped prog.now func.now) func.now.code)
        (λ found. IsFirstMistyped prog.now func.now found.item (meaning found.mistake)) }
{
    for (number, item) in func.code.as_slice().iter().enumerate() {
        if let Some(mistake) = mistake_of(prog, func, item) {
            return Some(Mistyped {
                item: number as u32,
                mistake,
            });
        }
    }
    None
}
