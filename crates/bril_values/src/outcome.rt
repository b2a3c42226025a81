// What operations compute.

ghost use Rattle.std.specs.Prelude.{◌≡◌, pos, ◌+ℤ◌};
ghost use Rattle.bril_tree.specs.Outcome.{computed, moved, divided, char_from, undefined, int_same};
ghost use Rattle.bril_values.specs.Computed.{outcome_seen};

use crate::parts::{block_of, bool_of, char_of, int_of, offset_of, zero_of};
use bril_nums::{quot, scalar, wrap_add, wrap_mul, wrap_sub};
use bril_tree::limits::Fault;
use bril_tree::operation::Op;
use bril_tree::types::Ty;
use bril_tree::value::Value;

/// The outcome of an operation.
#[derive(Clone, Copy, PartialEq, Eq, Debug, Drop)]
pub enum Outcome {
    /// A value for its destination.
    Yields(Value),
    /// A fault.
    FaultsWith(Fault),
    /// Neither: what it does is more than to compute.
    HasEffect,
}

/// What an operation gives with its first and second argument; `ty` is the type of its destination. The arithmetic wraps
/// modulo 2^64, and `div` rounds toward zero. An argument that is not of the operation's type counts as the zero of that
/// type. Takes no memory.
///
/// `FaultsWith` comes exactly with `DivZero` at a division by 0, `BadChar` at `int2char` of a number that is no scalar value of
/// Unicode, and `PtrRange` at `ptradd` to an offset outside the 32-bit signed range. `HasEffect` comes exactly at `undef` with
/// no type and at the operations that aren't named so far or in the language's arithmetic, comparisons, logic and `id`:
/// those of control, memory, output, `get` and `set`, and speculation.
///
/// The rules are the Bril documentation's: core language, and the extensions for characters, memory and SSA.
#[inline]
pub fn compute(op: Op, ty: Option<Ty>, first: Value, second: Value) -> Outcome
    ensures { outcome_seen result ≡ computed op ty first second }
{
    match op {
        Op::Add => Outcome::Yields(Value::Int(wrap_add(int_of(first), int_of(second)))),
        Op::Sub => Outcome::Yields(Value::Int(wrap_sub(int_of(first), int_of(second)))),
        Op::Mul => Outcome::Yields(Value::Int(wrap_mul(int_of(first), int_of(second)))),
        Op::Div => divide(int_of(first), int_of(second)),
        Op::Eq => Outcome::Yields(Value::Bool(int_of(first) == int_of(second))),
        Op::Lt => Outcome::Yields(Value::Bool(int_of(first) < int_of(second))),
        Op::Gt => Outcome::Yields(Value::Bool(int_of(first) > int_of(second))),
        Op::Le => Outcome::Yields(Value::Bool(int_of(first) <= int_of(second))),
        Op::Ge => Outcome::Yields(Value::Bool(int_of(first) >= int_of(second))),
        Op::Ceq => Outcome::Yields(Value::Bool(char_of(first) == char_of(second))),
        Op::Clt => Outcome::Yields(Value::Bool(char_of(first) < char_of(second))),
        Op::Cgt => Outcome::Yields(Value::Bool(char_of(first) > char_of(second))),
        Op::Cle => Outcome::Yields(Value::Bool(char_of(first) <= char_of(second))),
        Op::Cge => Outcome::Yields(Value::Bool(char_of(first) >= char_of(second))),
        Op::Not => Outcome::Yields(Value::Bool(!bool_of(first))),
        Op::And => Outcome::Yields(Value::Bool(bool_of(first) && bool_of(second))),
        Op::Or => Outcome::Yields(Value::Bool(bool_of(first) || bool_of(second))),
        Op::Id => Outcome::Yields(first),
        Op::PtrAdd => move_pointer(block_of(first), offset_of(first), int_of(second)),
        Op::CharToInt => Outcome::Yields(Value::Int(char_of(first) as i64)),
        Op::IntToChar => make_char(int_of(first)),
        Op::Undef => undefine(ty),
        _ => Outcome::HasEffect,
    }
}

// The quotient rounded toward zero.
#[inline]
fn divide(a: i64, b: i64) -> Outcome
    ensures { outcome_seen result ≡ divided (int_same b (pos 0)) a b }
{
    match quot(a, b) {
        Some(quotient) => Outcome::Yields(Value::Int(quotient)),
        None => Outcome::FaultsWith(Fault::DivZero),
    }
}

// A pointer moved by a number of cells.
#[inline]
fn move_pointer(block: u32, offset: i32, cells: i64) -> Outcome
    ensures { outcome_seen result ≡ moved block (offset +ℤ cells) }
{
    let Some(place) = (offset as i64).checked_add(cells) else {
        return Outcome::FaultsWith(Fault::PtrRange);
    };
    match i32::try_from(place) {
        Ok(offset) => Outcome::Yields(Value::Ptr { block, offset }),
        Err(_) => Outcome::FaultsWith(Fault::PtrRange),
    }
}

// The char of a number.
#[inline]
fn make_char(n: i64) -> Outcome
    ensures { outcome_seen result ≡ char_from n }
{
    match scalar(n) {
        Some(letter) => Outcome::Yields(Value::Char(letter)),
        None => Outcome::FaultsWith(Fault::BadChar),
    }
}

// The zero of a type.
#[inline]
fn undefine(ty: Option<Ty>) -> Outcome
    ensures { outcome_seen result ≡ undefined ty }
{
    match ty {
        Some(ty) => Outcome::Yields(zero_of(ty)),
        None => Outcome::HasEffect,
    }
}
