//! A file and all that it imports, as one tree. `link` gives exactly that tree, or the first fault of reading the files or of
//! their names.
//!
//! 1. A file is read in the format that its path names: `read_tree` gives the tree of its bytes, or their one fault
//!    (`formats`; `specs/formats/Format.antt`, `specs/formats/Reading.antt`).
//! 2. Which files there are, and their numbers (`specs/Order.antt`); what each of them reads as, and what stops the reading
//!    (`specs/Reading.antt`). The code: `src/reading.rt`, `src/paths.rt`, `src/known_paths.rt`, `src/file_numbers.rt`.
//! 3. What a name stands for in a file, and what is wrong with names (`specs/Names.antt`). The code: the names in a file
//!    (`src/locals.rt`), the functions that they stand for (`src/taken.rt`), names in the tree (`src/fresh_run.rt`), and
//!    functions under these (`src/renaming.rt`).
//! 4. The tree of all files (`specs/Linked.antt`), and why there is none (`specs/Refusing.antt`). The code: `src/linking.rt`,
//!    `src/table.rt`; the laws are in `src/laws.rt`.
//! 5. Which faults of names a linked tree never has (`linked_names`; `specs/linked_names/Laws.antt`).
#![tactic(auto)]

mod fault;
mod file_numbers;
pub mod formats;
mod fresh_run;
mod known_paths;
mod laws;
pub mod linked_names;
mod linking;
mod locals;
mod paths;
mod reading;
mod renaming;
mod sources;
mod table;
mod taken;

pub use fault::LinkFault;
pub use laws::{lacking_is_told, linking_is_one};
pub use linking::link;
pub use reading::read_source;
pub use sources::Source;
