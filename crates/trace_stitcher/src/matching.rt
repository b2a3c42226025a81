// Which entries of a profile fit a program, each with its path; and how many items their traces add.
//
// 1. Functions and labels by their names (`src/matching/places.rt`).
// 2. What is known of a function with entries: its flow graph and the points of its labels, each made once (`src/matching/surveys.rt`).
// 3. The order in which the entries are taken (`src/matching/ranking.rt`, `specs/matching/Ranking.antt`).
// 4. The entries that fit, in that order (`src/matching/fitting.rt`, `specs/matching/Fitting.antt`).

mod fitting;
mod places;
mod ranking;
mod surveys;

pub use fitting::{Fitting, added_items, fitting_entries};
