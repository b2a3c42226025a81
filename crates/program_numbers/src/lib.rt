//! Laws alone: the numbers of a program, in which bounds on passes and on the words of the machine are stated. There is one of
//! each at most.
//!
//! 1. Edges into labels (`specs/Entries.antt`), and the machine words that a step costs (`specs/Cost.antt`).
//! 2. Over all functions: the sum of entries and the greatest width of them, the greatest depth of sites and frame, and the
//!    most locations (`specs/ProgramNumbers.antt`).
#![tactic(auto)]

mod laws;

pub use laws::numbers_are_one;
