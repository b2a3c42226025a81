//! Laws alone: so many words of the machine are always enough for what a list of passes makes of a program.
//!
//! 1. The numbers of a program (`specs/Numbers.antt`), and what each pass makes of them: a table with one row for each pass,
//!    by its name (`specs/Rows.antt`).
//! 2. The budget of a list of names, computed through these rows (`specs/Budget.antt`).
//! 3. A chain of passes, each within the rows of its names, makes a program whose steps cost no more than the budget
//!    (`specs/Laws.antt`, `proofs/Costing.antt`); link by link (`proofs/Chaining.antt`).
#![tactic(auto)]

mod laws;

pub use laws::{chains_are_within_budget, own_numbers_are_within};
