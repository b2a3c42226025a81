//! A machine that runs images of RISC-V words. It makes exactly the steps of its words, and each result comes exactly by its
//! cause.
//!
//! 1. The state, steps and runs (`src/machine.rt`).
//! 2. What environment calls print and name (`src/environment.rt`).
//! 3. What steps and runs answer (`src/answer.rt`, `specs/StepAnswers.antt`).
#![tactic(auto)]

pub mod answer;
mod environment;
pub mod machine;
