//! The tokens of Bril's text form. `tokens` cuts a source exactly into its longest tokens, or finds the first byte where none
//! begins.
//!
//! 1. The loop over the source (`src/cut.rt`, `specs/Cut.antt`).
//! 2. One token (`src/scan.rt`, `specs/Scan.antt`), by classes of bytes (`src/class.rt`).
//! 3. What tokens are (`src/token.rt`), and how they are written (`specs/Spelling.antt`).
#![tactic(auto)]

pub mod class;
pub mod cut;
pub mod laws;
mod scan;
pub mod token;

pub use cut::{LexFault, tokens};
