//! The demo program: some functions that sum up numbers in a loop, and `main`, which calls them and prints what they return.
//! It is proved to be accepted.
//!
//! 1. The program, by its tree (`specs/Demo.antt`).
//! 2. The code that makes it (`src/items.rt`, `src/demo.rt`).
//! 3. Its functions and `main` by numbers (`proofs/Numbered.antt`, `Main.antt`, `Program.antt`), which are accepted
//!    (`specs/Laws.antt`, `src/laws.rt`): where nothing speculates, what is assigned at each point follows from edge to edge
//!    (`proofs/Quiet.antt`, `Tested.antt`).
#![tactic(auto)]

mod demo;
mod items;
mod laws;

pub use demo::demo_tree;
pub use laws::demos_are_accepted;
