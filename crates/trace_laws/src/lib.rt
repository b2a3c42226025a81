//! Laws alone: what the pass `trace` means, which lays the traces of a profile's entries after their labels, and that a tree
//! with such traces becomes a program that the pass may make.
//!
//! The module of each part says which files its proofs are in.
//!
//! 1. The lines of a trace (`lines`; `specs/lines/Lines.antt`), fresh names (`Names.antt`), what is made of a program
//!    (`Traced.antt`), and its bound (`Bound.antt`). The tree can be numbered.
//! 2. A program with traces does what the program does, its traces are quiet, and one that fails gives back what was there
//!    (`refinement`; `specs/refinement/Stitched.antt`, `Attempts.antt`).
//! 3. It is accepted: where each of its walks stands, and so the walks and the types are accepted (`acceptance`).
//! 4. How its numbers grow (`growth`; `specs/growth/Numbers.antt`).
//! 5. What the pass means (`specs/Trace.antt`). There is one factor and one bound, since there is one list of entries that
//!    fit, and which fit can be decided (`proofs/Unique.antt`, `Existing.antt`, `Numbers.antt`).
//! 6. All of it together: a tree with traces becomes a program that is accepted, refines the given one and is within the
//!    bound (`proofs/Made.antt`).
#![tactic(auto)]

pub mod acceptance;
pub mod growth;
mod laws;
pub mod lines;
pub mod refinement;

pub use laws::{fitting_entries_are_one_list, trace_has_numbers, traces_link};
