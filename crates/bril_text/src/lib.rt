//! Bril's text form. `read_text` gives exactly the tree that a source spells, or its first fault; `write_text` writes exactly
//! the canonical text of a tree, and reading that gives the tree.
//!
//! 1. Reading (`src/reading.rt`, `src/parse.rt`), with a file for each part of the grammar (`src/imports.rt`,
//!    `src/functions.rt`, `src/items.rt`, `src/operands.rt`, `src/types.rt`, `src/literal.rt`).
//! 2. Tokens as the grammar sees them (`src/terminals.rt`, `src/terminal.rt`, `src/keyword.rt`).
//! 3. Writing (`src/writing.rt` and `src/writing/`; `specs/Canonical.antt`).
#![tactic(auto)]

mod fault;
mod functions;
mod imports;
mod items;
mod keyword;
mod laws;
mod literal;
mod operands;
mod parse;
mod reading;
mod terminal;
mod terminals;
mod types;
mod writing;

pub use fault::TextFault;
pub use laws::{one_tree, tree_or_fault};
pub use reading::read_text;
pub use writing::laws::canonical_text_is_read;
pub use writing::write_text;
