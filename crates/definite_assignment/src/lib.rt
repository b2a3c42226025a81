//! Definite assignment: the first item that reads a location which some walk to it leaves unassigned, exactly.
//!
//! 1. The analysis (`src/analysis.rt`), 64 locations at a time (`src/window.rt`).
//! 2. Its searches (`src/flow.rt`), and the arcs that they go over (`src/arcs.rt`).
#![tactic(auto)]

mod analysis;
mod arcs;
mod flow;
mod window;

pub use analysis::{Unassigned, first_unassigned};
