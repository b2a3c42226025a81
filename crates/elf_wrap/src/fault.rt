// Why bytes are no file of an image.

ghost use Rattle.std.specs.Prelude.{◌≡◌};
ghost use Rattle.elf_wrap.specs.declared.fault.ElfFault.TheVariants.{Memory};

use std::alloc::AllocError;
use thiserror::Error;

/// Why bytes are no file of an image.
#[derive(Clone, Copy, PartialEq, Eq, Debug, Drop, Error)]
pub enum ElfFault {
    /// The byte offset of the first field that isn't as it must be, the file's length where it ends too early, or the
    /// offset behind the words where more bytes follow.
    #[error("byte {at} isn't of an image's file")]
    At { at: u64 },
    /// The code has so many words, more than 250,000.
    #[error("the code has {words} words")]
    CodeTooBig { words: u64 },
    /// The stack has so many words of 64 bits, more than 8,388,608.
    #[error("the stack has {words} words")]
    StackTooBig { words: u64 },
    /// Memory ran out.
    #[error("out of memory")]
    Memory,
}

impl From<AllocError> for ElfFault {
    ghost from_gives = { λ _ e. e ≡ Memory };

    fn from(_fault: AllocError) -> ElfFault {
        ElfFault::Memory
    }
}
