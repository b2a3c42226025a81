//! Profiles: which way a run went at its branches, from some of its labels on.
//!
//! 1. A profile, its entries and their choices (`src/profile.rt`).
#![tactic(auto)]

mod profile;

pub use profile::{Entry, Profile};
