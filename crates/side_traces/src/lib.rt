//! The pass `side`: a guard that fails tells which way its branch goes, so its side exit need not test it again.
//!
//! 1. The side exits of a function: its paired guards, each with the name of a fresh label (`src/exits.rt`, `specs/Names.antt`,
//!    `specs/Exits.antt`; `proofs/Names.antt`).
//! 2. The lines of one side exit (`src/lines.rt`), and those of all by the points before which they stand (`src/rows.rt`,
//!    `specs/Rows.antt`; `proofs/OneExit.antt`, `AllExits.antt`).
//! 3. The paired guards name the labels of their side exits (`src/guards.rt`; `proofs/Retargeting.antt`).
//! 4. One sweep over the items of the function (`src/sweep.rt`; `proofs/Splicing.antt`).
//! 5. The edit of the tree (`src/edit.rt`, `specs/Made.antt`; `proofs/Made.antt`). What pairs name is there (`proofs/Inside.antt`).
//! 6. The bound (`src/bound.rt`; `proofs/Bounding.antt`), and the pass around it (`src/side.rt`), linked by the laws of `side_laws`.
#![tactic(auto)]

mod bound;
mod edit;
mod exits;
mod guards;
mod lines;
mod rows;
mod side;
mod sweep;

pub use side::{Side, SideEdit};
