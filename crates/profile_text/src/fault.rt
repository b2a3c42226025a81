// Why bytes are no profile.

ghost use Rattle.std.specs.Prelude.{◌≡◌};
ghost use Rattle.profile_text.specs.declared.fault.ProfileFault.TheVariants.{Memory};

use std::alloc::AllocError;
use thiserror::Error;

/// Why bytes are no profile.
#[derive(Clone, Copy, PartialEq, Eq, Debug, Drop, Error)]
pub enum ProfileFault {
    /// The first line that isn't of the form, from 1.
    #[error("line {line} isn't of a profile's form")]
    Line { line: u32 },
    #[error("out of memory")]
    Memory,
}

impl From<AllocError> for ProfileFault {
    ghost from_gives = { λ _ e. e ≡ Memory };

    fn from(_fault: AllocError) -> ProfileFault {
        ProfileFault::Memory
    }
}
