//! Laws alone: the grammar of Bril's text form. Tokens spell one tree at most, and have exactly one first fault if they spell
//! none.
//!
//! 1. Which tokens spell which tree (`specs/Written.antt`).
//! 2. A machine that reads tokens one at a time (`specs/Machine.antt`, `specs/State.antt`), and the first fault
//!    (`specs/Fault.antt`).
//! 3. The types of words and marks (`src/keyword.rt`, `src/mark.rt`), and the laws (`src/laws.rt`).
#![tactic(auto)]

pub mod fault;
pub mod keyword;
pub mod laws;
pub mod mark;
