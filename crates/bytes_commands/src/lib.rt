//! The commands that work on the bytes of one file: `asm` and `exec`. Each does exactly what its value in `bril_commands` says.
//!
//! 1. From a listing to what is put (`src/assemble.rt`).
//! 2. From the file of an image to its run: the image and its arguments (`src/execute.rt`), and the run of the machine
//!    (`src/run.rt`; `specs/Stopping.antt`).
//! 3. The law that executing the file of an image is a run of the image (`src/laws.rt`, `specs/Laws.antt`).
#![tactic(auto)]

pub mod assemble;
pub mod execute;
mod laws;
mod run;

pub use laws::execution_is_a_run;
