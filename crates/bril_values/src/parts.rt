// What a value is as an int, a bool, a char and a pointer, and the zero of a type.

ghost use Rattle.std.specs.Prelude.{◌≡◌, FitsSigned};
ghost use Rattle.std.specs.Int.{w32};
ghost use Rattle.bril_tree.specs.Outcome as meaning;
ghost use Rattle.bril_tree.specs.Value as values;

use bril_tree::types::{Base, Ty};
use bril_tree::value::Value;

/// The int; 0 where the value is none. Takes no memory.
#[inline]
pub fn int_of(value: Value) -> i64
    ensures { result ≡ meaning.int_of value }
{
    match value {
        Value::Int(n) => n,
        _ => 0,
    }
}

/// The bool; false where the value is none. Takes no memory.
#[inline]
pub fn bool_of(value: Value) -> bool
    ensures { result ≡ meaning.bool_of value }
{
    match value {
        Value::Bool(b) => b,
        _ => false,
    }
}

// The char; U+0000 where the value is none.
#[inline]
pub fn char_of(value: Value) -> char
    ensures { result ≡ meaning.char_of value }
{
    match value {
        Value::Char(c) => c,
        _ => '\0',
    }
}

/// The number of the pointer's block; 0 where the value is no pointer. Takes no memory.
#[inline]
pub fn block_of(value: Value) -> u32
    ensures { result ≡ meaning.block_of value }
{
    match value {
        Value::Ptr { block, .. } => block,
        _ => 0,
    }
}

/// The pointer's offset, in cells; 0 where the value is no pointer. Takes no memory.
#[inline]
pub fn offset_of(value: Value) -> i32
    ensures value { result ≡ meaning.offset_of value }
    ensures fits { FitsSigned w32 result }
{
    match value {
        Value::Ptr { offset, .. } => offset,
        _ => 0,
    }
}

// The zero of a type.
#[inline]
pub fn zero_of(ty: Ty) -> Value
    ensures { result ≡ values.zero_of ty }
{
    if ty.depth > 0 {
        return Value::Ptr {
            block: 0,
            offset: 0,
        };
    }
    match ty.base {
        Base::Int => Value::Int(0),
        Base::Bool => Value::Bool(false),
        Base::Char => Value::Char('\0'),
    }
}
