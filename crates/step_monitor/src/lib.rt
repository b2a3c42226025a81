//! A monitor that runs an image and stops at its points: exactly at the next one that is marked, or at the next one, and there it
//! tells the values that the points' homes show.
//!
//! 1. The calls (`src/monitor.rt`): when a run stops and what it leaves (`specs/Went.antt`), and what contracts see of a monitor
//!    (`specs/MonitorView.antt`, `specs/Stands.antt`).
//! 2. What a run answers (`src/stop.rt`).
//! 3. The points by their words, their marks, and an index of them by function and item (`src/spots.rt`, `specs/Spots.antt`).
//! 4. The value of a type by its word (`src/words.rt`, `specs/Words.antt`), and a variable with its value (`src/entry.rt`).
//! 5. The laws: over an image that shows a program a stop is at the first chosen item ahead, a call that stops at no point passes
//!    none, marks choose items, and values are those of the program's variables there (`src/laws.rt`, `specs/Laws.antt`).
#![tactic(auto)]

pub mod entry;
mod laws;
pub mod monitor;
mod spots;
pub mod stop;
mod words;

pub use laws::{
    marks_choose, runs_pass_none, stops_are_least, stops_show_entries, stops_show_values,
};
