//! The pass `tidy`: drops every `nop` and every item that no walk reaches, and keeps the order of what stays.
//!
//! 1. What it makes, by trees (`specs/Tidied.antt`), and what it means (`specs/Tidy.antt`).
//! 2. The code: which items stay (`src/edit.rt`), and the pass around it (`src/tidy.rt`).
//! 3. The same by points (`proofs/Points.antt`), with where the items that stay stand (`proofs/Kept.antt`).
//! 4. Matched states go on: the result refines the program (`proofs/Refines.antt`).
//! 5. The items and the walks of the result: it is accepted (`proofs/Walks.antt`, `proofs/Accepted.antt`).
//! 6. No number of the program grows, but the labels that are entered from one leave point by one (`proofs/Numbers.antt`).
//! 7. From the tree to its program: the tree can be numbered, and is no longer (`proofs/Staying.antt`, `proofs/Made.antt`).
#![tactic(auto)]

mod edit;
mod tidy;

pub use tidy::{Tidy, TidyEdit};
