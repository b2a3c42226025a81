//! Names become numbers, and back. `number` gives exactly the numbered program of a tree, or its first fault of a name;
//! `unnumber` gives the tree back.
//!
//! 1. The faults of names (`specs/Faults.antt`).
//! 2. From names to numbers (`src/numbering.rt` and `src/numbering/`).
//! 3. From numbers to names (`src/unnumbering.rt` and `src/unnumbering/`).
#![tactic(auto)]

mod fault;
mod laws;
mod numbering;
mod unnumbering;

pub use fault::NameFault;
pub use laws::{numbering_is_one_to_one, program_or_fault, sound_edits_have_no_fault};
pub use numbering::number;
pub use unnumbering::{function_of, unnumber};
