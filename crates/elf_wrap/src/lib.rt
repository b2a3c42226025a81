//! Images as ELF files. `open_elf` opens exactly what `wrap` writes, within the limits of images.
//!
//! 1. The file: a table of fields (`src/table.rt`, `specs/Form.antt`, `specs/Numbers.antt`), and its fault (`src/fault.rt`).
//! 2. Writing (`src/writing.rt`) and reading (`src/reading.rt`), and their laws (`specs/Laws.antt`, `src/laws.rt`).
#![tactic(auto)]

mod fault;
mod laws;
mod reading;
mod table;
mod writing;

pub use fault::ElfFault;
pub use laws::{field_faults_are_first, opened_is_wrapped, wrapped_opens};
pub use reading::open_elf;
pub use table::Field;
pub use writing::wrap;
