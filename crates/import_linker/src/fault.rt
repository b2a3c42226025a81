// Why files were not linked.

ghost use Rattle.std.specs.Prelude.{◌≡◌};
ghost use Rattle.import_linker.specs.declared.fault.LinkFault.TheVariants.{Memory};

use crate::formats::ReadFault;
use bril_tree::name::Name;
use bril_tree::text::Text;
use std::alloc::AllocError;

/// Why files were not linked. The path is that of the file at fault.
#[derive(Drop)]
pub enum LinkFault {
    /// The file is not there, or reading it failed.
    Read { path: Text },
    /// The bytes of the file read as no tree.
    Bad { path: Text, fault: ReadFault },
    /// The file takes a function from a file that doesn't have it, or names one that stands for none.
    NotThere { path: Text, name: Name },
    /// Two functions have this name in the file, taken or its own.
    Clash { path: Text, name: Name },
    /// More than 256 files are named.
    TooManyFiles,
    /// The files have more than 16,777,216 bytes together.
    TooManyBytes,
    /// Memory was wanting.
    Memory,
}

impl From<AllocError> for LinkFault {
    ghost from_gives = { λ _ e. e ≡ Memory };

    fn from(_fault: AllocError) -> LinkFault {
        LinkFault::Memory
    }
}
