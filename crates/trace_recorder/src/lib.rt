//! The recorder: `Recorder` takes exactly the profile of a run while the run goes on.
//!
//! 1. What a state shows, and arrivals (`specs/Sight.antt`); the profile of a run (`specs/Recorded.antt`).
//! 2. When a recorder stands for a run, and what one state does to it (`specs/Standing.antt`); what its parts keep
//!    (`specs/Passings.antt`, `specs/Counts.antt`, `specs/Kept.antt`).
//! 3. While no path goes on, a recorder only counts arrivals: `run_counting` has the interpreter make such steps by itself, with
//!    the counts lent to it.
//! 4. The code: the calls (`src/recorder.rt`), how a state is seen (`src/parts.rt`, `src/seen.rt`, `src/arrival.rt`,
//!    `src/passing.rt`), the paths that go on (`src/paths.rt`), an entry that was begun (`src/kept.rt`), and the counts of
//!    arrivals and numbers of entries by label (`src/counts.rt`).
#![tactic(auto)]

mod arrival;
mod counts;
mod kept;
mod parts;
mod passing;
mod paths;
mod recorder;
mod seen;

pub use recorder::Recorder;
