//! The law of passes, and that any list of passes keeps it.
//!
//! A pass makes an accepted program of an accepted program. What it means is four things (`Meaning`): the names that it
//! answers to, its factor and its bound on items for a program and a profile, and the relation between a program, a profile
//! and what it makes of them. `Pass` is its law: the result is accepted, refines the given program with the factor, has at
//! most so many items, and stands in that relation. Whoever writes a pass proves this of it, and `run_list` then holds for
//! any list of passes, whoever wrote them. `pass_pad` is a pass to begin with.
//!
//! 1. What a pass means (`specs/Meaning.antt`), and its law (`src/pass.rt`).
//! 2. Lists of passes: the chain of what they make (`specs/Chains.antt`, `src/list.rt`), its bounds (`specs/Bounds.antt`,
//!    `src/bounds.rt`), where it stops (`specs/Stops.antt`), and the tallies of the passes (`specs/Tallies.antt`,
//!    `src/tally.rt`).
#![tactic(auto)]

mod bounds;
mod fault;
mod laws;
mod list;
mod pass;
mod tally;

pub use bounds::room;
pub use fault::{ListFault, PassFault};
pub use laws::chains_refine;
pub use list::{is_answered, run_list};
pub use pass::Pass;
pub use tally::Tally;
