//! Other names of variables: which variables are apart, so that they may have one name, exactly; and what a program with such
//! names is, which does what the program did.
//!
//! The passes `merge` and `color` stand on it: each puts the variables of a function into classes, and says what is known of
//! them.
//!
//! 1. Which variables are apart (`specs/Apart.antt`), and which clash: one is assigned while the other is live
//!    (`specs/Clashes.antt`, `src/clashes.rt`, `proofs/Found.antt`). What an item copies, and whose shadow it names:
//!    `src/copies.rt`.
//! 2. Classes of variables (`specs/Classes.antt`), and what a class must know of its variables: types and shadows
//!    (`src/variables.rt`, `specs/Shadows.antt`, `proofs/Typed.antt`, `proofs/Shadowed.antt`).
//! 3. What classes make of a tree, function by function (`specs/Made.antt`): new names, and `nop` for copies inside a class
//!    (`src/edit.rt`, `proofs/Editing.antt`), and from one function to the program (`src/tree.rt`, `proofs/Functions.antt`).
//!    The tree can be numbered, and is as long (`proofs/Made.antt`).
//! 4. A program under sound new names, by points and by names (`specs/Renamed.antt`); what classes make is one
//!    (`proofs/Naming.antt`, `proofs/Trees.antt`). Items and points under new names: `proofs/Names.antt`, `proofs/Copying.antt`,
//!    `proofs/Points.antt`.
//! 5. It refines the program (`proofs/Refines.antt`), is accepted (`proofs/Types.antt`, `proofs/Accepted.antt`), and no number of
//!    the program grows (`proofs/Numbers.antt`).
#![tactic(auto)]

mod clashes;
mod copies;
mod edit;
mod tree;
mod variables;

pub use clashes::{Related, clashing, search};
pub use copies::{dest_of, shadow_of, source_of};
pub use tree::{Renaming, renamed_tree};
pub use variables::{are_of_one_type, class_of, mark, numbers_below, shadowed_variables};
