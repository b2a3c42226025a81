//! The pass `pad`: one `nop` more before item 0 of each function. It is the smallest pass, and the one to copy for another.
//!
//! A pass has these parts:
//!
//! 1. What it makes, by trees (`specs/Padded.antt`), and what it means (`specs/Pad.antt`).
//! 2. The code: an edit of the tree (`src/edit.rt`), and what is the pass's own (`src/pad.rt`).
//! 3. The plan (`specs/Plan.antt`), and that matched states go on: the result refines the program (`proofs/Refines.antt`).
//! 4. The items and the walks of the result: it is accepted (`proofs/Accepted.antt`).
//! 5. From the tree to its program: the tree can be numbered, and has so many items (`proofs/Made.antt`).
#![tactic(auto)]

mod edit;
mod pad;

pub use pad::{Pad, PadEdit};
