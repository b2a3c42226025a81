//! Where a byte, a function and an item stand in a text, exactly as the grammar has them.
//!
//! 1. Lines and columns (`src/place.rt`, `specs/Place.antt`).
//! 2. What tokens are to a search: signs (`src/sign.rt`, `specs/Sign.antt`).
//! 3. The search among signs (`src/search.rt`, `specs/Search.antt`), which is proved to find what the grammar says
//!    (`specs/Standing.antt`, `proofs/Found.antt`); and the calls (`src/standing.rt`).
#![tactic(auto)]

mod place;
mod search;
mod sign;
mod standing;

pub use place::{Place, begins_character, place_of};
pub use standing::{function_at, item_at};
