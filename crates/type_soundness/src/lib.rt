//! Laws alone: a run of an accepted program meets nothing that has no meaning.
//!
//! The semantics of a program is total: a location that holds nothing reads as the int 0, a value of a wrong type as the zero
//! of the type that an operation wants, and an abort where nothing was saved puts nothing back. A program is accepted by its
//! text alone: by its types, by the locations that its walks assign and by their open sites. The laws here tie the two: no
//! run of an accepted program comes to such a location. They ask that the literals of the program are in their range, as they
//! are in each program that is held in memory (`bril_tree::literals::literals_are_in_range`).
//!
//! 1. When a state is well typed (`specs/WellTyped.antt`), and that the states of a run are (`src/laws.rt`).
#![tactic(auto)]

mod laws;

pub use laws::{accepted_loads_are_well_typed, accepted_runs_are_well_typed};
