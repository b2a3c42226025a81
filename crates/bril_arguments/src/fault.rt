// Why words are no arguments of `main`.

use thiserror::Error;

/// Why words are no arguments of `main`.
#[derive(Clone, Copy, PartialEq, Eq, Debug, Drop, Error)]
pub enum ArgFault {
    /// There are `given` words, and `main` takes `wanted` arguments, which is another number.
    #[error("{given} arguments are given, and main takes {wanted}")]
    Count { given: u32, wanted: u32 },
    /// There are as many words as arguments. The word at this place, counted from 1, is the first that spells no value of
    /// its argument's type.
    #[error("argument {place} spells no value of its type")]
    Spelling { place: u32 },
    #[error("out of memory")]
    Memory,
}
