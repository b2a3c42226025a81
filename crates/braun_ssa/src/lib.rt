//! The pass `ssa`, which brings a program into SSA form (M. Braun and others, "Simple and Efficient Construction of Static
//! Single Assignment Form", 2013). The four crates before it, from `ssa_laws` on, have its parts and their laws.
//!
//! What it makes and means stands in `ssa_form_laws::form` (`IsSsa`, `ssa_meaning`). Here is what it takes to be a pass.
//!
//! 1. Its bound on items, by the live entries of all functions (`src/bound.rt`).
//! 2. The edit, which is the tree of `ssa_build::tree` (`src/ssa.rt`).
//! 3. The tree is all that the pass is to make, by the laws of `ssa_form_laws` (`proofs/Made.antt`).
#![tactic(auto)]

mod bound;
mod ssa;

pub use ssa::{Ssa, SsaEdit};
