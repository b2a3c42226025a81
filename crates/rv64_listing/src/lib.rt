//! Machine words as text. `read_listing` reads what `write_listing` writes; each source is one listing, or has a first fault.
//!
//! 1. The table of forms (`src/form.rt`, `src/register.rt`, `specs/Table.antt`), and lines (`specs/Line.antt`).
//! 2. Writing (`src/writing.rt`).
//! 3. Reading: tokens (`src/tokens.rt`), operands (`src/operands.rt`, `src/ranges.rt`), a line (`src/line.rt`), a source
//!    (`src/reading.rt`, `src/fault.rt`; `specs/Listing.antt`), as a function (`specs/Reading.antt`), and the laws
//!    (`specs/Laws.antt`).
#![tactic(auto)]

mod fault;
mod form;
mod laws;
mod line;
mod operands;
mod ranges;
mod reading;
mod register;
mod tokens;
mod writing;

pub use fault::ListingFault;
pub use form::Form;
pub use laws::{lines_tell_one_word, listings_are_exact, written_is_read};
pub use reading::read_listing;
pub use writing::write_listing;
