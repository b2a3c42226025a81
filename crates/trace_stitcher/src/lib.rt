//! The pass `trace`: after the label of each entry of a profile that fits stands the path that the entry takes from there,
//! which is run between a `speculate` and a `commit`, and given up where a branch goes another way.
//!
//! 1. Which entries of a profile fit a program, each with its path, and how many items their traces bring (`matching`;
//!    `specs/matching/Fitting.antt`): the entries by falling count (`src/matching/ranking.rt`), each where it fits, with the
//!    bound (`fitting.rt`), functions and labels by their names (`places.rt`), and the flow graph of a function with
//!    entries, made once (`surveys.rt`).
//! 2. The names of a trace before any `_` (`fresh_names`; `src/fresh_names/bases.rt`), of which fresh ones are made by
//!    `pass_make`. There is one fresh name of each.
//! 3. The items of a trace (`src/lines.rt`, `specs/Legs.antt`), and what an entry puts into its function: its trace, and the
//!    label where the trace goes on (`src/traces.rt`, `specs/Stops.antt`), by what these are lent (`specs/Sources.antt`).
//! 4. What is put in by all entries of a function, by points, and one sweep over its items (`src/inserted.rt`,
//!    `src/sweep.rt`, `specs/Inserted.antt`, `proofs/Rows.antt`, `Splicing.antt`).
//! 5. The edit of the tree (`src/edit.rt`). What is made is what the pass makes (`proofs/Traced.antt`, `Functions.antt`).
//! 6. The pass around it (`src/stitch.rt`): the bound of the entries (`proofs/Bounding.antt`), and the link by the laws of
//!    `trace_laws`.
#![tactic(auto)]

mod edit;
pub mod fresh_names;
mod inserted;
mod lines;
pub mod matching;
mod stitch;
mod sweep;
mod traces;

pub use stitch::{Stitch, StitchEdit};
