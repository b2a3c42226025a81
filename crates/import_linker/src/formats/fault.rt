// Why bytes were not read as a tree.

ghost use Rattle.std.specs.Prelude.{◌≡◌};
ghost use Rattle.import_linker.specs.formats.Faults.{text_fault, json_fault};

use bril_json::JsonFault;
use bril_text::TextFault;
use thiserror::Error;

/// Why a file's bytes read as no tree: the fault of its format, which is never want of memory.
#[derive(Clone, Copy, PartialEq, Eq, Debug, Drop)]
pub enum ReadFault {
    Text(TextFault),
    Json(JsonFault),
}

/// Why bytes were not read as a tree.
#[derive(Clone, Copy, PartialEq, Eq, Debug, Drop, Error)]
pub enum TreeFault {
    /// They read as none.
    #[error("the bytes read as no tree")]
    Misread { fault: ReadFault },
    /// Memory was wanting.
    #[error("out of memory")]
    Memory,
}

impl From<TextFault> for TreeFault {
    ghost from_gives = { λ fault e. e ≡ text_fault fault };

    fn from(fault: TextFault) -> TreeFault {
        match fault {
            TextFault::Memory => TreeFault::Memory,
            TextFault::Lex { .. }
            | TextFault::Grammar { .. }
            | TextFault::IntRange { .. }
            | TextFault::Float { .. }
            | TextFault::Deep { .. } => TreeFault::Misread {
                fault: ReadFault::Text(fault),
            },
        }
    }
}

impl From<JsonFault> for TreeFault {
    ghost from_gives = { λ fault e. e ≡ json_fault fault };

    fn from(fault: JsonFault) -> TreeFault {
        match fault {
            JsonFault::Memory => TreeFault::Memory,
            JsonFault::Syntax
            | JsonFault::Shape { .. }
            | JsonFault::IntRange { .. }
            | JsonFault::Float { .. }
            | JsonFault::Deep { .. } => TreeFault::Misread {
                fault: ReadFault::Json(fault),
            },
        }
    }
}
