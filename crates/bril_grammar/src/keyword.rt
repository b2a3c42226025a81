// What an identifier means where the grammar asks for a keyword.

use bril_tree::operation::Op;
use bril_tree::types::Base;

/// The keyword that an identifier spells. None is reserved: each may also name a variable.
#[derive(Clone, Copy, PartialEq, Eq, Debug, Drop)]
pub enum Keyword {
    From,
    Import,
    As,
    /// `int`, `bool` or `char`.
    BaseType(Base),
    Ptr,
    /// `float`, the type of Bril's floating point extension, which is not supported.
    FloatType,
    Const,
    /// `true` or `false`.
    Truth(bool),
    Operation(Op),
    /// One of the nine operations of Bril's floating point extension, which are not supported.
    FloatOperation,
    /// Any other identifier.
    Plain,
}
