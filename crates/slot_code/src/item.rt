// The items of code over slots.

use bril_tree::operators::{BinaryOp, UnaryOp};
use bril_tree::sequence::Seq;
use bril_tree::types::Base;
use bril_tree::value::Value;

/// A slot of a frame: the variable of this number, or its shadow.
#[derive(Clone, Copy, PartialEq, Eq, Debug, Drop)]
pub enum Slot {
    Variable(u32),
    Shadow(u32),
}

/// A variable that is printed, and whether its value is an int, a bool or a char.
#[derive(Clone, Copy, PartialEq, Eq, Debug, Drop)]
pub struct Printed {
    pub variable: u32,
    pub kind: Base,
}

/// An item: what it does, the numbers of the variables that it reads and writes, and the numbers of the items to which it
/// goes; the number of items is the function's end.
#[derive(Drop)]
pub enum SlotItem {
    /// A label or a `nop`: the next item.
    Pass,
    /// A `const` or an `undef`.
    Constant {
        dest: u32,
        value: Value,
    },
    /// An `id`, a `get` or a `set`.
    Copy {
        dest: Slot,
        from: Slot,
    },
    Unary {
        operation: UnaryOp,
        dest: u32,
        operand: u32,
    },
    Binary {
        operation: BinaryOp,
        dest: u32,
        first: u32,
        second: u32,
    },
    Jump {
        to: u32,
    },
    /// Goes to `then_to` where the condition holds, else to `else_to`.
    Branch {
        condition: u32,
        then_to: u32,
        else_to: u32,
    },
    /// Calls the function of this number; its result, where it is taken, goes to `dest`.
    Call {
        dest: Option<u32>,
        function: u32,
        args: Seq<u32>,
    },
    Return {
        value: Option<u32>,
    },
    Print {
        args: Seq<Printed>,
    },
    Alloc {
        dest: u32,
        count: u32,
    },
    Free {
        pointer: u32,
    },
    Store {
        pointer: u32,
        value: u32,
    },
    Load {
        dest: u32,
        pointer: u32,
    },
    Speculate,
    Commit,
    /// Where the condition doesn't hold, the newest speculation is taken back, and control goes to `abort_to`.
    Guard {
        condition: u32,
        abort_to: u32,
    },
}
