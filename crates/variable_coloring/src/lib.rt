//! The pass `color`: gives one name to variables of one type that are apart pairwise, as far as any two names could be one, and
//! changes nothing else.
//!
//! 1. What the pass finds in a function (`specs/Colors.antt`): classes of variables, as large as can be. First come the pairs of
//!    variables that meet, one assigned while the other is live (`specs/Pairs.antt`, `src/pairs.rt`, `src/dests.rt`,
//!    `proofs/Pairing.antt`), the variables that copies relate (`src/copies.rt`), and what else guides the choice, of which no
//!    clause speaks (`src/softs.rt`, `src/loops.rt`, `src/wishes.rt`). Then the variables, in the order of their first appearance,
//!    are put into classes of before, or begin one (`specs/Growing.antt`, `src/colors.rt`, `proofs/Placing.antt`,
//!    `proofs/Marks.antt`): a class that meets a variable is stamped (`src/classes.rt`, `proofs/Stamping.antt`), what a variable
//!    may be put into is apart from it and what not isn't (`proofs/Fitting.antt`, `proofs/Joining.antt`), and heads of classes
//!    stand in rows by their types (`src/rows.rt`, `proofs/Heads.antt`). Variables that find no class to their liking wait, and
//!    have a second turn (`specs/Late.antt`, `src/late.rt`, `proofs/Waiting.antt`).
//! 2. Where variables are live, for blocks of 64 at once (`specs/LiveWords.antt`): the reads of a function and the arcs back along
//!    its edges (`src/live_flow.rt`, `src/arcs.rt`, `src/windows.rt`, `proofs/LiveArcs.antt`, `proofs/Seeding.antt`), the searches of
//!    a block, and the points at which some variable of it is live (`src/live_words.rt`, `proofs/Finding.antt`).
//! 3. What it makes (`specs/Color.antt`), and the pass (`src/color.rt`). That it keeps what a pass owes follows from
//!    `variable_renaming`, since such classes are sound (`proofs/Made.antt`).
#![tactic(auto)]

mod arcs;
mod classes;
mod color;
mod colors;
mod copies;
mod dests;
mod late;
mod live_flow;
mod live_words;
mod loops;
mod pairs;
mod rows;
mod softs;
mod windows;
mod wishes;

pub use color::{Color, ColorEdit};
