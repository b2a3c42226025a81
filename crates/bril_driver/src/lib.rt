//! The driver: the stages from a request to what its command does with the files that it names. It does exactly what the
//! command means.
//!
//! 1. The stages in turn, layer by layer of what is asked (`src/driver.rt`); the layers without a list of passes
//!    (`src/unchanged.rt`).
//! 2. The passes that a command was lent and the names of their list, as one (`src/listed_passes.rt`).
#![tactic(auto)]

pub mod driver;
mod listed_passes;
mod unchanged;
