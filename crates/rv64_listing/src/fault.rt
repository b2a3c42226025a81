// Why bytes are no listing.

ghost use Rattle.std.specs.Prelude.{◌≡◌};
ghost use Rattle.rv64_listing.specs.declared.fault.ListingFault.TheVariants.{Memory};

use std::alloc::AllocError;
use thiserror::Error;

/// Why bytes are no listing.
#[derive(Clone, Copy, PartialEq, Eq, Debug, Drop, Error)]
pub enum ListingFault {
    /// The first line, from 1, that isn't empty and tells no word.
    #[error("line {line} tells no word")]
    Line { line: u32 },
    /// Memory ran out.
    #[error("out of memory")]
    Memory,
}

impl From<AllocError> for ListingFault {
    ghost from_gives = { λ _ e. e ≡ Memory };

    fn from(_fault: AllocError) -> ListingFault {
        ListingFault::Memory
    }
}
