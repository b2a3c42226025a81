// Why a call is given no command line.

ghost use Rattle.std.specs.Prelude.{◌≡◌};
ghost use Rattle.roolvist_lib.specs.declared.untold.Untold.TheVariants.{Memory};

use std::alloc::AllocError;
use thiserror::Error;

/// Why a call is given no command line.
#[derive(Clone, Copy, PartialEq, Eq, Debug, Drop, Error)]
pub enum Untold {
    /// The pieces don't fit.
    #[error("the pieces don't fit")]
    Misfit,
    /// Memory was wanting.
    #[error("out of memory")]
    Memory,
}

impl From<AllocError> for Untold {
    ghost from_gives = { λ _ e. e ≡ Memory };

    fn from(_fault: AllocError) -> Untold {
        Untold::Memory
    }
}
