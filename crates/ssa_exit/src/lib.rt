//! The pass `unssa`, which leaves SSA form: each shadow becomes a variable of its own, and each `get` and `set` a copy.
//!
//! 1. Which names the shadows get (`specs/Fresh.antt`), what the pass makes, by trees (`specs/Unssaed.antt`), and what it
//!    means (`specs/Unssa.antt`).
//! 2. The code: a stem with which no name begins (`src/fresh.rt`), which shadows are written (`src/written.rt`), the edit of
//!    the tree (`src/edit.rt`), and the pass around it (`src/unssa.rt`).
//! 3. The same by points (`proofs/Points.antt`). Shadows and what stands for them hold the same, so matched states go on: the
//!    result refines the program (`proofs/Refines.antt`).
//! 4. The types and the walks of the result: it is accepted (`proofs/Types.antt`, `proofs/Accepted.antt`).
//! 5. No `get` or `set` is left, and no number of the program grows (`proofs/Numbers.antt`).
//! 6. From the tree to its program: the tree can be numbered, and is as long (`proofs/Made.antt`).
#![tactic(auto)]

mod edit;
mod fresh;
mod unssa;
mod written;

pub use unssa::{Unssa, UnssaEdit};
