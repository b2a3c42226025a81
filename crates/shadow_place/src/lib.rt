//! Homes for the locations of a program while the machine runs it, and which of them speculations save. Both keep what
//! `placement_laws` asks.
//!
//! 1. The home of each location is a register or its own word of the frame (`src/registers.rt`, `src/homes.rt`). A function
//!    that has no more locations than there are registers gives each of them one; in any other, locations share a register
//!    whose spans don't meet (`src/spans.rt`, `src/needs.rt`, `src/shared.rt`, `src/allocation.rt`).
//! 2. What is saved, by the points of the `speculate` items: the items that assign a location from which a walk leads to a guard at
//!    whose label it is live are found by searches back from the guards, level by level, and each marks the location in the row of
//!    the site of the level that is open there (`src/arcs.rt`, `src/marks.rt`, `src/saved.rt`).
//! 3. Both for each function, by its graph and what is live in it (`src/analyses.rt`, `src/lives.rt`; `place`,
//!    `src/placement.rt`), as tables (`Placed::home`, `Placed::saved`, `src/placed.rt`). What is promised:
//!    `specs/Placement.antt`.
#![tactic(auto)]

mod allocation;
mod analyses;
mod arcs;
mod homes;
mod lives;
mod marks;
mod needs;
mod placed;
mod placement;
mod registers;
mod saved;
mod shared;
mod spans;

pub use lives::all_lives;
pub use placed::Placed;
pub use placement::place;
