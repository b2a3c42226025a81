// Why a program has no image.

ghost use Rattle.std.specs.Prelude.{◌≡◌};
ghost use Rattle.rv64_words.specs.declared.fault.EmitFault.TheVariants.{Memory};

use std::alloc::AllocError;
use thiserror::Error;

/// Why no image is made of a program.
#[derive(Clone, Copy, PartialEq, Eq, Debug, Drop, Error)]
pub enum EmitFault {
    /// The sum of the bounds on the items' words passes 250,000. It is this sum, or `u64::MAX` where that is greater.
    #[error("the code may have {words} words")]
    CodeTooBig { words: u64 },
    /// The frames' words pass 8,388,608. They are so many, or `u64::MAX` where that is greater.
    #[error("the stack has {words} words")]
    StackTooBig { words: u64 },
    /// Memory ran out.
    #[error("out of memory")]
    Memory,
}

impl From<AllocError> for EmitFault {
    ghost from_gives = { λ _ e. e ≡ Memory };

    fn from(_fault: AllocError) -> EmitFault {
        EmitFault::Memory
    }
}
