//! From an edit of a program to a pass: where an edit keeps what it owes, the pass that is made of it keeps the law of
//! passes.
//!
//! A pass is an edit and its proof. An edit makes a tree, or, where it goes in rounds, a program. The refusals of `number`
//! and `check` other than out of memory are proved never to come, from what the edit says of its tree (`CanBeMade`, in
//! `specs/`).
//!
//! 1. `Edit` has what is a pass's own, and `Edited` is the pass (`src/edit.rt`, `specs/Edited.antt`).
//! 2. What an edit makes (`src/made.rt`).
//! 3. From an edited tree to a checked program: `finish` numbers and checks it (`src/from_tree.rt`). The item that passes put
//!    in place of others is there too.
//! 4. For passes that put items in: fresh names, each with the least number of `_` in front that makes it differ from all that
//!    are taken (`src/fresh_names.rt`, `proofs/Marks.antt`, `Taking.antt`).
//! 5. From the edit of one function to the tree of a program: `each_function` (`src/by_function.rt`, `specs/Each.antt`). What
//!    follows where a relation says what is made of each function: `proofs/Each.antt`.
#![tactic(auto)]

mod by_function;
mod edit;
mod fresh_names;
mod from_tree;
mod made;

pub use by_function::each_function;
pub use edit::{Edit, Edited};
pub use fresh_names::{TakenNames, taken_labels, taken_variables};
pub use from_tree::{finish, nop};
pub use made::Made;
