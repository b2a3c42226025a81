// Why a step wasn't made.

ghost use Rattle.std.specs.Prelude.{◌≡◌};
ghost use Rattle.bril_interpreter.specs.declared.stop.Stop.TheVariants.{Memory, Write};

use bril_outside::sink::Failed;
use std::alloc::AllocError;

// Why a step wasn't made: memory was wanting, or a write failed.
#[derive(Clone, Copy, PartialEq, Eq, Debug, Drop)]
pub enum Stop {
    Memory,
    Write,
}

impl From<AllocError> for Stop {
    ghost from_gives = { λ _ e. e ≡ Memory };

    fn from(_fault: AllocError) -> Stop {
        Stop::Memory
    }
}

impl From<Failed> for Stop {
    ghost from_gives = { λ _ e. e ≡ Write };

    fn from(_failed: Failed) -> Stop {
        Stop::Write
    }
}
