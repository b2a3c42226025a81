// What is known of locations, and the answers of items by it.

ghost use Rattle.std.specs.Prelude.{◌≡◌, ◌∷◌, [], ℕ, List, map, pos, slice_index, slice_index_or, unwrap_or};
ghost use Rattle.std.specs.List.{list_any};
ghost use Rattle.bril_tree.specs.Operand.{Shadow, Variable};
ghost use Rattle.bril_tree.specs.Outcome.{argument};
ghost use Rattle.bril_tree.specs.Value.{literal_value};
ghost use Rattle.bril_tree.specs.declared.numbered.Instr.TheVariants.{Act};
ghost use Rattle.bril_tree.specs.declared.value.Value.TheVariants.{Int};
ghost use Rattle.bril_values.specs.Computed.{outcome_seen};
ghost use Rattle.constant_pass.specs.constants.Known.{is_many, is_nothing, single};
ghost use Rattle.constant_pass.specs.constants.Answer.{answer, by_operands, known_outcome, known_value, locals_of};
ghost use Rattle.constant_pass.specs.constants.Kept.{kept};
ghost use Rattle.constant_pass.specs.declared.constants.known.Known.TheVariants.{Nothing};

use crate::constants::known::Known;
use bril_tree::numbered::Instr;
use bril_tree::operation::Op;
use bril_tree::types::Ty;
use bril_tree::value::{Lit, Value};
use bril_values::{Outcome, compute};

// What is kept of the location of a number; nothing where there is no entry.
pub(crate) fn entry(known: &[Known], number: usize) -> Known
    ensures { result ≡ slice_index_or known.now number Nothing }
{
    if number < known.len() {
        known[number]
    } else {
        Known::Nothing
    }
}

// What is known of a variable.
pub(crate) fn variable(known: &[Known], x: u32) -> Known
    ensures { result ≡ kept known.now (Variable x) }
{
    entry(known, 2 * x as usize)
}

// What is known of a variable's shadow.
pub(crate) fn shadow(known: &[Known], x: u32) -> Known
    ensures { result ≡ kept known.now (Shadow x) }
{
    entry(known, 2 * x as usize + 1)
}

// An argument of an operation, or 0 where there are too few.
fn operand(args: &[u32], k: usize) -> u32
    ensures { result ≡ slice_index args.now k }
{
    if k < args.len() { args[k] } else { 0 }
}

// What is known of an argument of an operation.
pub(crate) fn known_operand(known: &[Known], args: &[u32], k: usize) -> Known
    ensures { result ≡ kept known.now (Variable (slice_index args.now k)) }
{
    variable(known, operand(args, k))
}

// The value, or the int 0 where there isn't one.
fn value_of(known: Known) -> Value
    ensures { result ≡ unwrap_or (single known) (Int (pos 0)) }
{
    match known {
        Known::One(value) => value,
        _ => Value::Int(0),
    }
}

// The value of an argument, or the int 0 where it hasn't one.
fn argument(known: &[Known], args: &[u32], k: usize) -> Value
    ensures { result ≡ argument (locals_of (kept known.now)) args.now k }
{
    value_of(known_operand(known, args, k))
}

// A value as it is told: a pointer isn't.
fn known_value(value: Value) -> Known
    ensures { result ≡ known_value value }
{
    match value {
        Value::Ptr { .. } => Known::Many,
        _ => Known::One(value),
    }
}

// An outcome as it is told.
fn known_outcome(outcome: Outcome) -> Known
    ensures { result ≡ known_outcome (outcome_seen outcome) }
{
    match outcome {
        Outcome::Yields(value) => known_value(value),
        _ => Known::Many,
    }
}

// Whether nothing is known of an operand.
fn lacks_operand(known: &[Known], args: &[u32]) -> bool
    ensures { result ≡ list_any is_nothing (map (kept known.now) (map Variable args.now)) }
{
    for x in args {
        if variable(known, *x).is_nothing() {
            return true;
        }
    }
    false
}

// Whether an operand may be many.
fn has_many(known: &[Known], args: &[u32]) -> bool
    ensures { result ≡ list_any is_many (map (kept known.now) (map Variable args.now)) }
{
    for x in args {
        if variable(known, *x).is_many() {
            return true;
        }
    }
    false
}

// The answer, unless an operand is nothing or many.
fn by_operands(known: &[Known], args: &[u32], answer: Known) -> Known
    ensures { result ≡ by_operands (map (kept known.now) (map Variable args.now)) answer }
{
    if lacks_operand(known, args) {
        return Known::Nothing;
    }
    if has_many(known, args) {
        return Known::Many;
    }
    answer
}

// The answer of an item that hands on what it reads.
fn copied(known: Known) -> Known
    ensures { result ≡ by_operands (known ∷ []) (known_value (unwrap_or (single known) (Int (pos 0)))) }
{
    match known {
        Known::One(value) => known_value(value),
        _ => known,
    }
}

// The answer of `get`.
fn get_answer(known: &[Known], dest: Option<u32>, _ty: Option<Ty>, _args: &[u32]) -> Known
    ensures { (funcs labels : List ℕ) → result ≡ answer (kept known.now) (Act dest _ty Op.Get _args.now funcs labels) }
{
    match dest {
        None => Known::Many,
        Some(x) => copied(shadow(known, x)),
    }
}

// The answer of an operation.
fn operation_answer(
    known: &[Known],
    op: Op,
    dest: Option<u32>,
    ty: Option<Ty>,
    args: &[u32],
) -> Known
    ensures { (funcs labels : List ℕ) → result ≡ answer (kept known.now) (Act dest ty op args.now funcs labels) }
{
    match op {
        Op::Get => get_answer(known, dest, ty, args),
        Op::Set => copied(known_operand(known, args, 1)),
        _ => {
            let outcome = compute(op, ty, argument(known, args, 0), argument(known, args, 1));
            by_operands(known, args, known_outcome(outcome))
        }
    }
}

// The value of a literal.
fn literal_value(literal: Lit) -> Value
    ensures { result ≡ literal_value literal }
{
    match literal {
        Lit::Int(n) => Value::Int(n),
        Lit::Bool(b) => Value::Bool(b),
        Lit::Char(c) => Value::Char(c),
    }
}

// The answer of an item by what is kept of the locations. Takes time in proportion to what it reads.
pub(crate) fn answer(known: &[Known], item: &Instr) -> Known
    ensures { result ≡ answer (kept known.now) item.now }
{
    match item {
        Instr::Label(_) => Known::Many,
        Instr::Const { value, .. } => known_value(literal_value(*value)),
        Instr::Act {
            dest,
            ty,
            op,
            args,
            ..
        } => operation_answer(known, *op, *dest, *ty, args.as_slice()),
    }
}
