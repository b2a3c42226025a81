// Why a pass made nothing, and why a list of passes stopped.

ghost use Rattle.std.specs.Prelude.{◌≡◌};
ghost use Rattle.pass_law.specs.declared.fault.PassFault.TheVariants.{Memory};

use bril_checker::Checked;
use std::alloc::AllocError;
use thiserror::Error;

/// Why a pass made nothing.
#[derive(Clone, Copy, PartialEq, Eq, Debug, Drop, Error)]
pub enum PassFault {
    /// The pass's bound on the items of the result passes 1,000,000 and the number of items that it was given. `bound`
    /// is that bound, or 2^64 - 1 where it is greater.
    #[error("too large: {bound}")]
    TooLarge { bound: u64 },
    #[error("out of memory")]
    Memory,
}

impl From<AllocError> for PassFault {
    ghost from_gives = { λ _ e. e ≡ Memory };

    fn from(_fault: AllocError) -> PassFault {
        PassFault::Memory
    }
}

/// Why a list of passes stopped. Places of names count from 1.
#[derive(Drop)]
pub enum ListFault {
    /// No pass answers to the name at the place, the first such. No pass ran, and the program is handed back.
    Unknown {
        place: u32,
        prog: Checked,
    },
    /// The pass of the name at the place answered `TooLarge` with the bound. `prog` is the program that it was given.
    TooLarge {
        place: u32,
        bound: u64,
        prog: Checked,
    },
    /// Out of memory.
    Memory,
}
