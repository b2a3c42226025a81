// Why a line is not read.

use std::alloc::AllocError;
use thiserror::Error;

/// Why a line is not read.
#[derive(Clone, Copy, PartialEq, Eq, Debug, Drop, Error)]
pub enum LineFault {
    /// A backslash begins no escape.
    #[error("a backslash that begins no escape")]
    Escape,
    /// The line isn't in its form.
    #[error("the line isn't in its form")]
    Form,
    /// Out of memory.
    #[error("out of memory")]
    Memory,
}

impl From<AllocError> for LineFault {
    fn from(_fault: AllocError) -> LineFault {
        LineFault::Memory
    }
}
