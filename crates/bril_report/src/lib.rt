//! What is reported of how a command ended, and of the counts of a run. Each status has its number, and its line on the error
//! output is exactly as it is defined.
//!
//! 1. Statuses (`src/status.rt`), their numbers and lines (`src/report.rt`; `specs/Report.antt`, `specs/Lines.antt`), and the
//!    status of each stage's fault (`src/stage_faults.rt`).
//! 2. The error output, which drops what comes after a failed put (`src/error_output.rt`), and both outputs as one
//!    (`src/outputs.rt`).
//! 3. The lines of a run of the machine and of the tallies of passes (`src/stats.rt`, `src/tallies.rt`).
#![tactic(auto)]

mod error_output;
mod outputs;
mod report;
mod stage_faults;
mod stats;
mod status;
mod tallies;

pub use error_output::ErrorOutput;
pub use outputs::Outputs;
pub use report::{exit_number, say, status_number};
pub use stats::{put_guard, put_words};
pub use status::Status;
pub use tallies::put_tally;
