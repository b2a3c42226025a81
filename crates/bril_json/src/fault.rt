// Why a source can't be read.

ghost use Rattle.std.specs.Prelude.{◌≡◌};
ghost use Rattle.bril_json.specs.declared.fault.JsonFault.TheVariants.{Memory};

use std::alloc::AllocError;
use thiserror::Error;

/// Why a source is not a program in Bril's JSON form. `func` and `item` are the numbers, from 0, of the function and the
/// item with the fault, or None where it is in none.
#[derive(Clone, Copy, PartialEq, Eq, Debug, Drop, Error)]
pub enum JsonFault {
    /// The source is not a JSON value.
    #[error("no JSON value")]
    Syntax,
    /// Something is not as the JSON form requires.
    #[error("not as the form has it")]
    Shape {
        func: Option<u32>,
        item: Option<u32>,
    },
    /// The value of a `const` is a whole number of 64 bits above the greatest int.
    #[error("function {func}, item {item}: the number is no int of 64 bits")]
    IntRange {
        func: u32,
        item: u32,
    },
    /// A type, an operation or a number of Bril's floating point extension.
    #[error("floats are not supported")]
    Float {
        func: Option<u32>,
        item: Option<u32>,
    },
    /// A type with more than 32 `ptr`.
    #[error("more than 32 ptr in a type")]
    Deep {
        func: Option<u32>,
        item: Option<u32>,
    },
    #[error("out of memory")]
    Memory,
}

impl From<AllocError> for JsonFault {
    ghost from_gives = { λ _ e. e ≡ Memory };

    fn from(_fault: AllocError) -> JsonFault {
        JsonFault::Memory
    }
}
