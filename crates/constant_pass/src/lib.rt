//! The pass `const`: writes out what the tables of constants tell, and changes nothing else.
//!
//! 1. The table of constants of a function (`constants`): what its variables and shadows hold in all runs, and which points
//!    are reached. What it is: `specs/constants/Consistent.antt` (`IsConsistent`, `IsLeast`), `Answer.antt`, `Ways.antt`. The
//!    code: the table (`src/constants/const_table.rt`), the work lists (`src/constants/work.rt`), what an item gives
//!    (`src/constants/answer.rt`), and what is known of a location (`src/constants/known.rt`).
//! 2. What becomes of an item (`specs/Items.antt`) and of a program (`specs/Folded.antt`), and what the pass means
//!    (`specs/Const.antt`).
//! 3. The code: what becomes of an item (`src/item.rt`), the edit of the tree (`src/edit.rt`), and the pass around it
//!    (`src/pass.rt`). What the code does to an item by its tree (`specs/Edit.antt`) is what becomes of it
//!    (`proofs/Editing.antt`).
//! 4. The cases of an item (`proofs/Fates.antt`), and the items of the result with its numbers (`proofs/Points.antt`).
//! 5. What is known where a walk along the table leads (`proofs/Along.antt`), and two plans: one for all walks, and one for
//!    the walks along the table, where what is live holds what the table says (`proofs/Plans.antt`).
//! 6. Matched states go on: the result refines the program (`proofs/Refines.antt`).
//! 7. The values of a table are of the types of their locations (`proofs/Typed.antt`), so the items of the result are typed,
//!    and its walks are the program's: it is accepted (`proofs/Accepted.antt`).
//! 8. No number of the program grows (`proofs/Numbers.antt`).
//! 9. From the tree to its program: the tree can be numbered, and is as long (`proofs/Made.antt`).
#![tactic(auto)]

pub mod constants;
mod edit;
mod item;
mod pass;

pub use crate::constants::{ConstTable, Known, table};
pub use pass::{Const, ConstEdit};
