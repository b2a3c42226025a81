//! The tests that data can't express: the adapters over the system's files and outputs, laws at concrete types, and lists of
//! passes.
//!
//! What command lines and other calls give is shown by the programs `command_cases` and `stage_cases`.
//!
//! 1. The adapters over the system and over streams that fail (`src/adapters.rt`, `src/weak.rt`).
//! 2. Each law of simulations (`src/laws.rt`) and of passes (`src/passes.rt`) at concrete types.
//! 3. Lists of passes on the top call, with passes that the program doesn't have (`src/lists.rt`), the demo
//!    (`src/demos.rt`), and calls after one in which something failed (`src/failures.rt`).
#![tactic(auto)]

#[cfg(test)]
mod adapters;
#[cfg(test)]
mod demos;
#[cfg(test)]
mod failures;
#[cfg(test)]
mod laws;
#[cfg(test)]
mod lists;
#[cfg(test)]
mod passes;
#[cfg(test)]
mod weak;
