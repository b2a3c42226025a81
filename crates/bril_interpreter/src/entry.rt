// What a variable or a shadow of a frame holds, in as much room as a value takes.

ghost use Rattle.std.specs.Prelude.{◌≡◌, pos, unwrap_or, None, Some, IfSome};
ghost use Rattle.bril_tree.specs.declared.value.Value.TheVariants.{Int};

use bril_tree::value::Value;
use std::marker::Model;

// Nothing, or a value: its cases and those of `Option` in one, so that one test tells which it is.
#[derive(Clone, Copy, Drop)]
pub enum Held {
    Nothing,
    Int(i64),
    Bool(bool),
    Char(char),
    Ptr { block: u32, offset: i32 },
}

// What a variable or a shadow holds.
#[derive(Clone, Copy, Drop)]
pub struct Entry {
    held: Held,
}

impl Model for Entry {
    ghost use Rattle.bril_interpreter.specs.Entries.{Content, held_as, held_back, value_held};

    ghost Value = { Content };

    ghost view = { λ e. value_held e.held };

    ghost inverse = { λ entry. record { held = held_as entry } };

    ghost inverse_ok = { λ e h i. record { held = held_back e.held i } };
}

impl Entry {
    // Nothing was assigned.
    pub fn empty() -> Entry
        ensures { result ≡ None }
    {
        Entry {
            held: Held::Nothing,
        }
    }

    // A value was assigned.
    #[inline(always)]
    pub fn of(value: Value) -> Entry
        ensures { result ≡ Some value }
    {
        Entry {
            held: match value {
                Value::Int(number) => Held::Int(number),
                Value::Bool(truth) => Held::Bool(truth),
                Value::Char(letter) => Held::Char(letter),
                Value::Ptr { block, offset } => Held::Ptr { block, offset },
            },
        }
    }

    // The same where a value was assigned, and the int 0 elsewhere.
    #[inline(always)]
    pub fn or_zero(&self) -> Entry
        ensures { result ≡ Some (unwrap_or self.now (Int (pos 0))) }
    {
        match self.held {
            Held::Nothing => Entry::of(Value::Int(0)),
            _ => *self,
        }
    }

    // The value, where one was assigned.
    pub fn value(&self) -> Option<Value>
        ensures { result ≡ self.now }
    {
        match self.held {
            Held::Nothing => None,
            Held::Int(number) => Some(Value::Int(number)),
            Held::Bool(truth) => Some(Value::Bool(truth)),
            Held::Char(letter) => Some(Value::Char(letter)),
            Held::Ptr { block, offset } => Some(Value::Ptr { block, offset }),
        }
    }

    // What is read of it: the int 0 where nothing was assigned.
    #[inline(always)]
    pub fn read(&self) -> Value
        ensures { result ≡ unwrap_or self.now (Int (pos 0)) }
    {
        match self.held {
            Held::Nothing => Value::Int(0),
            Held::Int(number) => Value::Int(number),
            Held::Bool(truth) => Value::Bool(truth),
            Held::Char(letter) => Value::Char(letter),
            Held::Ptr { block, offset } => Value::Ptr { block, offset },
        }
    }

    // The value, where it is an int.
    #[inline(always)]
    pub fn int(&self) -> Option<Value>
        ensures { IfSome result (λ value. self.now ≡ Some value) }
    {
        match self.held {
            Held::Int(number) => Some(Value::Int(number)),
            _ => None,
        }
    }

    // The same of a bool, a char and a pointer.
    #[inline(always)]
    pub fn bool(&self) -> Option<Value>
        ensures { IfSome result (λ value. self.now ≡ Some value) }
    {
        match self.held {
            Held::Bool(truth) => Some(Value::Bool(truth)),
            _ => None,
        }
    }

    #[inline(always)]
    pub fn char(&self) -> Option<Value>
        ensures { IfSome result (λ value. self.now ≡ Some value) }
    {
        match self.held {
            Held::Char(letter) => Some(Value::Char(letter)),
            _ => None,
        }
    }

    #[inline(always)]
    pub fn pointer(&self) -> Option<Value>
        ensures { IfSome result (λ value. self.now ≡ Some value) }
    {
        match self.held {
            Held::Ptr { block, offset } => Some(Value::Ptr { block, offset }),
            _ => None,
        }
    }
}
