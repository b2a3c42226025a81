// Why a tree has no numbered program.

ghost use Rattle.std.specs.Prelude.{◌≡◌};
ghost use Rattle.bril_names.specs.declared.fault.NameFault.TheVariants.{Memory};

use std::alloc::AllocError;
use thiserror::Error;

/// Why the names of a tree can't become numbers. `func` and `item` are the numbers of the function and of its
/// item at which the fault stands, from 0.
#[derive(Clone, Copy, PartialEq, Eq, Debug, Drop, Error)]
pub enum NameFault {
    /// The item names a function that the tree doesn't have.
    #[error("function {func}, item {item}: no such function")]
    NoFunction { func: u32, item: u32 },
    /// An earlier function has the same name.
    #[error("function {func}: the name stands twice")]
    TwiceFunction { func: u32 },
    /// The item names a label that doesn't stand in its function.
    #[error("function {func}, item {item}: no such label")]
    NoLabel { func: u32, item: u32 },
    /// The item is a label that stands earlier in its function.
    #[error("function {func}, item {item}: the label stands twice")]
    TwiceLabel { func: u32, item: u32 },
    /// No function is named `main`.
    #[error("no function is named main")]
    NoMain,
    /// Two arguments of the function have one name.
    #[error("function {func}: an argument stands twice")]
    TwiceArg { func: u32 },
    #[error("out of memory")]
    Memory,
}

impl From<AllocError> for NameFault {
    ghost from_gives = { λ _ e. e ≡ Memory };

    fn from(_fault: AllocError) -> NameFault {
        NameFault::Memory
    }
}
