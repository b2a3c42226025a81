//! Which programs are accepted. `check` accepts exactly these, and returns exactly the first fault of any other.
//!
//! 1. The rules in their order (`src/checker.rt`; the faults are in `specs/Faults.antt`): operands and types
//!    (`src/operands.rt`, `src/types.rt`), the first item that is wrong (`src/mistakes.rt`), and walks (`src/walks.rt`).
//! 2. A checked program (`src/checked.rt`), and the words of its frames (`src/frames.rt`).
#![tactic(auto)]

mod checked;
mod checker;
mod fault;
mod frames;
mod laws;
mod mistakes;
mod operands;
mod types;
mod walks;

pub use checked::Checked;
pub use checker::check;
pub use fault::CheckFault;
pub use laws::accepted_or_fault;
