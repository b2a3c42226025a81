// Why a block can't be had.

ghost use Rattle.std.specs.Prelude.{◌≡◌};
ghost use Rattle.bril_heap.specs.declared.fault.HeapFault.TheVariants.{Memory};

use std::alloc::AllocError;
use thiserror::Error;

/// Why a block can't be had.
#[derive(Clone, Copy, PartialEq, Eq, Debug, Drop, Error)]
pub enum HeapFault {
    /// The count is below 1.
    #[error("fewer cells than one")]
    BadAlloc,
    /// 262,144 blocks were taken before.
    #[error("too many blocks")]
    Allocs,
    /// Added to the cells of all live blocks, the count passes the limit.
    #[error("too many cells")]
    Cells,
    /// Memory was wanting.
    #[error("out of memory")]
    Memory,
}

impl From<AllocError> for HeapFault {
    ghost from_gives = { λ _ e. e ≡ Memory };

    fn from(_fault: AllocError) -> HeapFault {
        HeapFault::Memory
    }
}
