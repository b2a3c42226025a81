//! Bril's JSON form. `read_json` gives exactly the tree that a source is, or its first fault; `write_json` writes exactly the
//! canonical JSON of a tree, and reading that gives the tree.
//!
//! 1. The form as a table (`specs/Form.antt`).
//! 2. Reading (`src/reading.rt`, `src/program.rt`), with a file for each part of the form (`src/imports.rt`,
//!    `src/functions.rt`, `src/items.rt`, `src/instruction.rt`, `src/types.rt`, `src/literal.rt`, `src/names.rt`,
//!    `src/keys.rt`), and the function and the item that a fault is in (`src/position.rt`).
//! 3. Writing (`src/writing.rt` and `src/writing/`; `specs/Canonical.antt`).
#![tactic(auto)]

mod fault;
mod functions;
mod imports;
mod instruction;
mod items;
mod keys;
mod laws;
mod literal;
mod names;
mod position;
mod program;
mod reading;
mod types;
mod writing;

pub use fault::JsonFault;
pub use laws::{one_tree, tree_or_fault};
pub use reading::read_json;
pub use writing::laws::canonical_json_is_read;
pub use writing::write_json;
