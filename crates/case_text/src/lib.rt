//! The text form of cases: lines that stand for bytes, bytes that are shown as lines, and programs of sources. `command_cases`
//! and `stage_cases` stand on it.
//!
//! No clause says what it gives: what it reads and writes is seen in the cases.
//!
//! 1. Bytes that a line writes with escapes (`src/escape.rt`), and bytes as lines (`src/lines.rt`).
//! 2. The programs of sources, and their arguments (`src/programs.rt`).
#![tactic(auto)]

mod escape;
mod fault;
mod lines;
mod programs;

pub use escape::add_unescaped;
pub use fault::LineFault;
pub use lines::add_lines;
pub use programs::{checked_of, program_of, values_of};
