//! Laws alone: when an image of machine words does what a program does, and how large it may be.
//!
//! 1. An image does what a program does (`specs/Implements.antt`), where a location's value is meanwhile
//!    (`specs/Home.antt`), and at which item the program stands (`specs/Stands.antt`).
//! 2. The most words of an image and of its stack (`specs/WordBounds.antt`).
//! 3. What so many words show of the program (`specs/Shown.antt`, `src/laws.rt`).
//! 4. The points of a program in its image (`specs/ProgramPoints.antt`, `specs/ListsPoints.antt`), when the machine is there
//!    and what it shows (`specs/PointsShown.antt`), and where a monitor of it stops (`specs/Stops.antt`).
#![tactic(auto)]

mod laws;

pub use laws::{
    images_count_failures, images_end_in_time, images_show_programs, stops_are_least,
    values_are_shown,
};
