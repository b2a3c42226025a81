//! The arguments of a program's `main`: exactly the values that the words spell, or the first fault.
//!
//! 1. The words of all arguments (`src/arguments.rt`; `AreSpelled`, `specs/Spelled.antt`), and one word (`src/spelling.rt`).
//! 2. Ints where no program says what words spell (`src/ints.rt`; `AreInts`, `specs/Ints.antt`).
//! 3. What is wrong with words (`src/fault.rt`, `specs/Faults.antt`).
#![tactic(auto)]

mod arguments;
mod fault;
mod ints;
mod spelling;

pub use arguments::read_args;
pub use fault::ArgFault;
pub use ints::read_ints;
