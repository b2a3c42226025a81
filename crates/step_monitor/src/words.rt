// The value of a type by its word.

ghost use Rattle.std.specs.Prelude.{◌≡◌, true, false, Some, MatchOption};
ghost use lib.Utf8.{scalar};
ghost use Rattle.bril_tree.specs.Value.{IsInRange, IsPointer, word_of};
ghost use Rattle.rv64_image_laws.specs.Stops.{IsValueOf};
ghost use Rattle.step_monitor.specs.Words.{IsBaseValueOf};

use bril_tree::types::{Base, Ty};
use bril_tree::value::Value;

/// The value of a type whose word it is; `None` where there is none.
pub fn read_word(ty: Ty, word: u64) -> Option<Value>
    ensures { IsValueOf ty (Some word) result }
{
    if ty.depth > 0 {
        return Some(pointer_of(word));
    }
    base_value(ty.base, word)
}

fn base_value(base: Base, word: u64) -> Option<Value>
    ensures { IsBaseValueOf base word result }
{
    match base {
        Base::Int => Some(Value::Int(word.cast_signed())),
        Base::Bool => bool_of(word),
        Base::Char => char_of(word),
    }
}

fn pointer_of(word: u64) -> Value
    ensures range { IsInRange result }
    ensures pointer { IsPointer result }
    ensures word { word_of result ≡ word }
{
    Value::Ptr {
        block: (word / 0x1_0000_0000) as u32,
        offset: ((word % 0x1_0000_0000) as u32).cast_signed(),
    }
}

fn bool_of(word: u64) -> Option<Value>
    ensures { IsBaseValueOf Base.Bool word result }
{
    match word {
        0 => Some(Value::Bool(false)),
        1 => Some(Value::Bool(true)),
        _ => None,
    }
}

fn char_of(word: u64) -> Option<Value>
    ensures { IsBaseValueOf Base.Char word result }
{
    match char_numbered(word) {
        None => None,
        Some(letter) => Some(Value::Char(letter)),
    }
}

fn char_numbered(number: u64) -> Option<char>
    ensures { MatchOption result (scalar number ≡ false) (λ c. (scalar number ≡ true) × (c ≡ number)) }
{
    if number > 0x10FFFF {
        return None;
    }
    char::from_u32(number as u32)
}
