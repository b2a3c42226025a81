// Why a program is not accepted.

ghost use Rattle.std.specs.Prelude.{◌≡◌};
ghost use Rattle.bril_checker.specs.declared.fault.CheckFault.TheVariants.{Memory};

use std::alloc::AllocError;
use thiserror::Error;

/// Why a program is not accepted. `func` and `item` are the numbers of the function and of its item at which the
/// fault stands, from 0; the function's end has the number of its items. `var` is the number of a variable.
#[derive(Clone, Copy, PartialEq, Eq, Debug, Drop, Error)]
pub enum CheckFault {
    /// An operand or a destination isn't of the type of its row, or has none.
    #[error("function {func}, item {item}: a wrong type")]
    Types { func: u32, item: u32 },
    /// A wrong number of operands, or a wrong presence of the destination.
    #[error("function {func}, item {item}: a wrong number of operands")]
    Arity { func: u32, item: u32 },
    /// Some walk to the item doesn't assign the variable, or its shadow, which it reads.
    #[error("function {func}, item {item}: variable {var} may be unassigned")]
    MaybeUnassigned { func: u32, item: u32, var: u32 },
    /// The open speculation sites fail here.
    #[error("function {func}, item {item}: the open speculations don't nest")]
    Nest { func: u32, item: u32 },
    /// A call, a return or the function's end while a speculation is open.
    #[error("function {func}, item {item}: a speculation is open")]
    SpecCall { func: u32, item: u32 },
    /// A function that returns a value runs off its end.
    #[error("function {func}, item {item}: no value is returned")]
    NoReturn { func: u32, item: u32 },
    /// `main` returns a value, or takes a pointer.
    #[error("main returns a value or takes a pointer")]
    MainType,
    /// A pointer is printed.
    #[error("function {func}, item {item}: a pointer is printed")]
    PrintPtr { func: u32, item: u32 },
    #[error("out of memory")]
    Memory,
}

impl From<AllocError> for CheckFault {
    ghost from_gives = { λ _ e. e ≡ Memory };

    fn from(_fault: AllocError) -> CheckFault {
        CheckFault::Memory
    }
}
