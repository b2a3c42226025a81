// Why tokens are no program.

use std::alloc::AllocError;

/// Why a token is the first that doesn't fit. Where several causes apply to one token, the first of them here counts.
#[derive(Clone, Copy, PartialEq, Eq, Debug, Drop)]
pub enum FaultKind {
    /// A floating point literal where a literal may come, a floating point type where a type may come, or a floating
    /// point operation where an operation may come and `:` doesn't follow.
    Float,
    /// A number outside -2^63 to 2^63 - 1, where a literal may come.
    IntRange,
    /// The 33rd `ptr` of a type.
    Deep,
    /// No program continues with this token or, where no token is left, none ends here.
    Grammar,
}

/// The first token that doesn't fit: why, and how many tokens are left, itself included. At the end of the source none
/// is left.
#[derive(Clone, Copy, PartialEq, Eq, Debug, Drop)]
pub struct Fault {
    pub kind: FaultKind,
    pub left: usize,
}
