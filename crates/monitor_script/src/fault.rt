// Why bytes are no script.

ghost use Rattle.std.specs.Prelude.{◌≡◌};
ghost use Rattle.monitor_script.specs.declared.fault.ScriptFault.TheVariants.{Memory};

use std::alloc::AllocError;
use thiserror::Error;

/// Why bytes are no script.
#[derive(Clone, Copy, PartialEq, Eq, Debug, Drop, Error)]
pub enum ScriptFault {
    /// The first line that isn't of the form, from 1.
    #[error("line {line} isn't of a script's form")]
    Line { line: u32 },
    #[error("out of memory")]
    Memory,
}

impl From<AllocError> for ScriptFault {
    ghost from_gives = { λ _ e. e ≡ Memory };

    fn from(_fault: AllocError) -> ScriptFault {
        ScriptFault::Memory
    }
}
