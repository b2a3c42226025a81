//! The path of a profile's entry through a program: which items it walks over, which it lays, and where it stops. A path lays
//! at most 256 items. And which entries of a profile fit a program, and in which order they are taken.
//!
//! 1. The path (`specs/Path.antt`, `specs/Walked.antt`; `src/walk.rt`), and how it meets an item (`src/met.rt`).
//! 2. Which entries of a profile fit a program (`specs/Fits.antt`).
//! 3. The order in which entries are taken, by falling count (`specs/Taken.antt`; `src/ranks.rt`), and its laws
//!    (`specs/Order.antt`).
#![tactic(auto)]

mod laws;
mod met;
mod ranks;
mod walk;

pub use laws::{entries_are_taken_by_count, paths_are_short};
pub use met::{Meeting, item_meeting};
pub use ranks::{Ranked, first_in_turn, in_turn};
pub use walk::{Leg, Path, path_within};
