// What a monitor tells of a variable at a point.

use bril_tree::value::Value;

/// A variable, by its number in its function, from 0, and its value.
#[derive(Clone, Copy, PartialEq, Eq, Debug, Drop)]
pub struct EntryValue {
    pub var: u32,
    pub value: Value,
}
