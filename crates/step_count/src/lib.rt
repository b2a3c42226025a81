//! Runs whose instructions are counted.
//!
//! The count (`specs/Executed.antt`) has each step of an item that is no label; the end of a function is no item. The loop that
//! makes the steps is `src/counted.rt`.
#![tactic(auto)]

mod counted;

pub use counted::{CountedRun, run_counted};
