// The types of an item's operands.

ghost use Rattle.std.specs.Prelude.{◌≡◌, map, take, slice_get, slice_index};
ghost use Rattle.std.specs.Option.{option_map};
ghost use Rattle.bril_tree.specs.Run.{types_of};
ghost use Rattle.bril_tree.specs.Typing.{variable_type, argument_type, unary, binary, are_typed, is_call_typed, is_return_typed, is_action_typed, is_dest_typed, call_fits, action_call_fits, is_call_shaped, is_literal_typed};

use crate::types::{fits_shadow, has_base, has_pointer, have_same, have_target};
use bril_tree::numbered::{Instr, VarInfo};
use bril_tree::numbered_function::Func;
use bril_tree::operation::Op;
use bril_tree::program::Prog;
use bril_tree::types::{Base, Ty};
use bril_tree::typing::same_result;
use bril_tree::value::Lit;

// The type of a variable, where it has one.
pub fn variable_type(func: &Func, x: u32) -> Option<Ty>
    ensures { result ≡ variable_type func.now.vars x }
{
    match func.vars.as_slice().get(x as usize) {
        None => None,
        Some(v) => v.ty,
    }
}

// The type of the argument at a place; that of variable 0 where the item has no such argument, and then its shape
// is wrong.
fn argument_type(func: &Func, args: &[u32], place: usize) -> Option<Ty>
    ensures { result ≡ argument_type func.now.vars args.now place }
{
    match args.get(place) {
        None => variable_type(func, 0),
        Some(x) => variable_type(func, *x),
    }
}

// The function that a `call` calls; function 0 where the item names none, and then its shape is wrong.
fn callee<'a>(prog: &'a Prog, funcs: &[u32]) -> Option<&'a Func>
    ensures { option_map (λ f. f.now) result ≡ slice_get prog.now.funcs (slice_index funcs.now 0) }
{
    match funcs.first() {
        None => prog.funcs.as_slice().first(),
        Some(number) => prog.funcs.as_slice().get(*number as usize),
    }
}

// The variables that are a function's arguments.
pub fn parameters(func: &Func) -> &[VarInfo]
    ensures { result.now ≡ take func.now.args func.now.vars }
{
    &func.vars.as_slice()[..func.args as usize]
}

// Whether the first argument has the base, and the destination the other one.
fn unary(base: Base, to: Base, func: &Func, args: &[u32], ty: Option<Ty>) -> bool
    ensures { result ≡ unary base to func.now.vars args.now ty }
{
    has_base(base, argument_type(func, args, 0)) && has_base(to, ty)
}

// Whether both arguments have the base, and the destination the other one.
fn binary(base: Base, to: Base, func: &Func, args: &[u32], ty: Option<Ty>) -> bool
    ensures { result ≡ binary base to func.now.vars args.now ty }
{
    has_base(base, argument_type(func, args, 0))
        && has_base(base, argument_type(func, args, 1))
        && has_base(to, ty)
}

// Whether there are as many arguments as the called function takes, each of the type at its place.
fn are_typed(func: &Func, args: &[u32], parameters: &[VarInfo]) -> bool
    ensures { result
        ≡ are_typed (map (variable_type func.now.vars) args.now) (map (λ v. v.ty) parameters.now) }
{
    if args.len() != parameters.len() {
        return false;
    }
    for (place, x) in args.iter().enumerate() {
        if !have_same(variable_type(func, *x), parameters[place].ty) {
            return false;
        }
    }
    true
}

// Whether the arguments and the destination of a `call` have the types that the called function wants.
fn is_call_typed(prog: &Prog, func: &Func, ty: Option<Ty>, args: &[u32], funcs: &[u32]) -> bool
    ensures { result
        ≡ is_call_typed (slice_get prog.now.funcs (slice_index funcs.now 0)) func.now.vars args.now ty }
{
    match callee(prog, funcs) {
        None => args.is_empty() && ty.is_none(),
        Some(called) => are_typed(func, args, parameters(called)) && same_result(ty, called.ret),
    }
}

// Whether the argument of a `ret` has the type that the function returns.
fn is_return_typed(func: &Func, args: &[u32]) -> bool
    ensures { result ≡ is_return_typed func.now.ret func.now.vars args.now }
{
    match func.ret {
        None => true,
        Some(_) => have_same(func.ret, argument_type(func, args, 0)),
    }
}

// Whether the operands of an operation other than `print`, whose shape is its operation's, have the types of its row.
pub fn is_action_typed(
    prog: &Prog,
    func: &Func,
    op: Op,
    ty: Option<Ty>,
    args: &[u32],
    funcs: &[u32],
) -> bool
    ensures { result ≡ is_action_typed prog.now func.now op ty args.now funcs.now }
{
    let first = argument_type(func, args, 0);
    let second = argument_type(func, args, 1);
    match op {
        Op::Add | Op::Sub | Op::Mul | Op::Div => binary(Base::Int, Base::Int, func, args, ty),
        Op::Eq | Op::Lt | Op::Gt | Op::Le | Op::Ge => binary(Base::Int, Base::Bool, func, args, ty),
        Op::Ceq | Op::Clt | Op::Cgt | Op::Cle | Op::Cge => {
            binary(Base::Char, Base::Bool, func, args, ty)
        }
        Op::And | Op::Or => binary(Base::Bool, Base::Bool, func, args, ty),
        Op::Not => unary(Base::Bool, Base::Bool, func, args, ty),
        Op::CharToInt => unary(Base::Char, Base::Int, func, args, ty),
        Op::IntToChar => unary(Base::Int, Base::Char, func, args, ty),
        Op::Id => have_same(first, ty),
        Op::Br | Op::Guard => has_base(Base::Bool, first),
        Op::Call => is_call_typed(prog, func, ty, args, funcs),
        Op::Ret => is_return_typed(func, args),
        Op::Alloc => has_base(Base::Int, first) && has_pointer(ty),
        Op::Free => has_pointer(first),
        Op::Store => have_target(first, second),
        Op::Load => have_target(first, ty),
        Op::PtrAdd => { has_pointer(first) && has_base(Base::Int, second) && have_same(first, ty) }
        Op::Set => fits_shadow(first, second),
        Op::Nop | Op::Jmp | Op::Print | Op::Get | Op::Undef | Op::Speculate | Op::Commit => true,
    }
}

// Whether the destination, where there is one, has the type of its variable.
pub fn is_dest_typed(prog: &Prog, func: &Func, dest: Option<u32>, ty: Option<Ty>) -> bool
    ensures { result ≡ is_dest_typed prog.now func.now dest ty }
{
    match dest {
        None => true,
        Some(x) => have_same(ty, variable_type(func, x)),
    }
}

// Whether a literal is of the type.
pub fn is_literal_typed(value: Lit, ty: Ty) -> bool
    ensures { result ≡ is_literal_typed value ty }
{
    match value {
        Lit::Int(_) => has_base(Base::Int, Some(ty)),
        Lit::Bool(_) => has_base(Base::Bool, Some(ty)),
        Lit::Char(_) => has_base(Base::Char, Some(ty)),
    }
}

// Whether a `call` has as many arguments as the called function takes, and a destination exactly where that returns
// a value.
fn call_fits(prog: &Prog, func: &Func, dest: Option<u32>, args: &[u32], funcs: &[u32]) -> bool
    ensures { result
        ≡ call_fits prog.now func.now (slice_get prog.now.funcs (slice_index funcs.now 0)) dest args.now }
{
    match callee(prog, funcs) {
        None => args.is_empty() && dest.is_none(),
        Some(called) => args.len() == parameters(called).len()
            && called.ret.is_some() == dest.is_some(),
    }
}

// Whether the item is no `call`, or one that fits the called function.
pub fn is_call_shaped(prog: &Prog, func: &Func, item: &Instr) -> bool
    ensures { result ≡ is_call_shaped prog.now func.now item.now }
{
    match item {
        Instr::Act {
            dest,
            op: Op::Call,
            args,
            funcs,
            ..
        } => call_fits(prog, func, *dest, args.as_slice(), funcs.as_slice()),
        _ => true,
    }
}
