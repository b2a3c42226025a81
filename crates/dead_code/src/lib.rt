//! The pass `dead`: puts `nop` for each computation of what isn't live and for each item that no walk reaches, until none is
//! left, and changes nothing else.
//!
//! 1. Which items are removable (`specs/Removable.antt`), what the pass makes of them (`specs/Emptied.antt`), and what it
//!    means (`specs/Dead.antt`).
//! 2. The code: a sweep over the items (`src/sweep.rt`), a work list of the locations that may have become dead
//!    (`src/work.rt`), the edit of the tree (`src/edit.rt`), and the pass around it (`src/dead.rt`).
//! 3. One item becomes `nop` (`proofs/Step.antt`), and one after another (`proofs/Chain.antt`).
//! 4. Matched states go on: the result refines the program (`proofs/Refines.antt`).
//! 5. The items and the walks of the result: it is accepted (`proofs/Accepted.antt`).
//! 6. No item of the result is removable (`proofs/Left.antt`), and no number of the program grows (`proofs/Numbers.antt`).
//! 7. From the tree to its program: the tree can be numbered, and is as long (`proofs/Made.antt`).
#![tactic(auto)]

mod dead;
mod edit;
mod sweep;
mod work;

pub use dead::{Dead, DeadEdit};
