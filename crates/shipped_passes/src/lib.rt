//! The passes that come with the program, in their order. A pass is added to the list here, and nowhere else.
//!
//! What a pass is here stands in its own crate, among its proofs (`Shipped`): what it means, its row of a budget, and that what it
//! makes is within the row.
//!
//! 1. The list (`specs/Shipped.antt`), and what follows from it: each pass makes only what its name says
//!    (`proofs/Making.antt`), and is within the rows of all (`proofs/Budgets.antt`).
//! 2. The boxes, which are lent to a job (`src/lending.rt`, `proofs/Boxes.antt`).
#![tactic(auto)]

mod lending;

pub use lending::{Job, with_shipped_passes};
