//! The paired guards of a function: which guard of which run is paired with which branch, with the items that are kept before it.
//!
//! 1. The points of labels (`src/labels.rt`), and who reads a variable (`src/readers.rt`), as tables that are made once.
//! 2. What an item is (`src/items.rt`), and whether two are equal (`src/equal.rt`).
//! 3. Where a run begins, how long it is, and which label its guards name (`src/run.rt`).
//! 4. The walk from that label (`src/walk.rt`), how an item of the run goes with the item at the walk (`src/meeting.rt`), and one
//!    step of pairing (`src/step.rt`).
//! 5. The pairs that were found, with one list of kept items for all of them (`src/draft.rt`).
//! 6. All of it for a run and for a function (`src/pairs.rt`).
#![tactic(auto)]

mod draft;
mod equal;
mod items;
mod labels;
mod meeting;
mod pairs;
mod readers;
mod run;
mod step;
mod walk;

pub use pairs::{PairedGuard, Pairs, paired_guards};
