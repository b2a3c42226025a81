//! The text form of profiles, in two versions. `read_profile` gives the profile of which the bytes are the text, or the first
//! line that breaks the form; `write_profile` writes exactly the text of version 2.
//!
//! 1. The text, line by line (`specs/Form.antt`), and the first line that breaks the form (`specs/Fault.antt`).
//! 2. Reading (`src/reading.rt`): where bytes are cut (`src/lines.rt`), the versions (`src/version.rt`), the line of an entry
//!    (`src/entry.rt`), its choices (`src/choices.rt`) and its count (`src/count.rt`).
//! 3. Writing (`src/writing.rt`). A text is that of one profile, and a source has one first fault at most (`specs/Laws.antt`,
//!    `src/laws.rt`).
#![tactic(auto)]

mod choices;
mod count;
mod entry;
mod fault;
mod laws;
mod lines;
mod reading;
mod version;
mod writing;

pub use fault::ProfileFault;
pub use laws::{one_fault, one_profile, text_without_fault};
pub use reading::read_profile;
pub use writing::write_profile;
