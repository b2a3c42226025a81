//! What operations compute from values, and what `print` shows of one, exactly.
//!
//! 1. What is in a value as an int, a bool and a pointer (`src/parts.rt`).
//! 2. What each operation computes, or its fault (`src/outcome.rt`).
//! 3. What `print` writes of a value (`src/printed_value.rt`).
#![tactic(auto)]

mod outcome;
mod parts;
mod printed_value;

pub use outcome::{Outcome, compute};
pub use parts::{block_of, bool_of, int_of, offset_of};
pub use printed_value::PrintedValue;
