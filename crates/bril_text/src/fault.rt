// Why a source can't be read.

ghost use Rattle.std.specs.Prelude.{◌≡◌};
ghost use Rattle.bril_text.specs.declared.fault.TextFault.TheVariants.{Memory};

use bril_lex::cut::LexFault;
use std::alloc::AllocError;
use thiserror::Error;

/// Why a source is not a program in Bril's text form. `at` counts bytes from 0: for `Lex` it is the byte at which
/// nothing begins, for the others the first byte of the token that doesn't fit, or the source's length at its end.
#[derive(Clone, Copy, PartialEq, Eq, Debug, Drop, Error)]
pub enum TextFault {
    /// No token, blank or comment begins here. This comes before any other fault.
    #[error("byte {at}: nothing begins here")]
    Lex { at: u32 },
    /// No program continues with this token or, where no token is left, none ends here.
    #[error("byte {at}: no program goes on so")]
    Grammar { at: u32 },
    /// A number outside -2^63 to 2^63 - 1, where a literal may come.
    #[error("byte {at}: the number is no int of 64 bits")]
    IntRange { at: u32 },
    /// A literal, a type or an operation of Bril's floating point extension, where one may come. At an operation only
    /// where `:` doesn't follow.
    #[error("byte {at}: floats are not supported")]
    Float { at: u32 },
    /// The 33rd `ptr` of a type.
    #[error("byte {at}: more than 32 ptr in a type")]
    Deep { at: u32 },
    /// Out of memory.
    #[error("out of memory")]
    Memory,
}

impl From<AllocError> for TextFault {
    ghost from_gives = { λ _ e. e ≡ Memory };

    fn from(_fault: AllocError) -> TextFault {
        TextFault::Memory
    }
}

impl From<LexFault> for TextFault {
    ghost use Rattle.bril_text.specs.Reading.{lexed};

    ghost from_gives = { λ fault e. e ≡ lexed fault };

    fn from(fault: LexFault) -> TextFault {
        match fault {
            LexFault::At { at } => TextFault::Lex { at },
            LexFault::Memory => TextFault::Memory,
        }
    }
}
