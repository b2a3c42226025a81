//! What the commands do with the image of a program: its words are listed, or the machine executes them, and what comes of it
//! is shown. What a run puts is proved for every image, and what it leaves for every image that implements its program.
//!
//! 1. The words of an image as text, for `emit` (`src/listing.rt`).
//! 2. The run of an image on the machine, for `run` (`src/run.rt`), and the counts of a run (`src/stats.rt`). What it leaves:
//!    `proofs/Pieces.antt` for any image, `proofs/Runs.antt` for one that implements a program.
//! 3. The run of a demo, and the line that shows it (`src/demo.rt`).
#![tactic(auto)]

pub mod demo;
pub mod listing;
pub mod run;
mod stats;
