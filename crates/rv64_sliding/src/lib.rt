//! The live blocks of a machine's memory slide to the front of the cells, in place. What is left is exactly what the
//! environment's definition says.
//!
//! 1. `slide` (`src/slide.rt`), with its loop's invariant (`proofs/InPlace.antt`).
//! 2. What the machine keeps of its block table, so that blocks can slide (`KeepsBlocks`, `specs/Order.antt`), and that each
//!    environment call keeps it (`proofs/Keeping.antt`).
#![tactic(auto)]

pub mod slide;
