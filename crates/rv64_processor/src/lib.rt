//! What a machine's words do to its registers and memory: single words, runs of them, and groups of them that are executed at
//! once. A run of words and groups is proved to be the same words, one after another.
//!
//! 1. A word as it is decoded (`src/decoded.rt`). Single words (`src/processor.rt`, `src/word_steps.rt`), and what they compute
//!    (`src/operation.rt`).
//! 2. Memory: a region, filled as it is written (`src/region.rt`), and the three regions (`src/memory.rt`).
//! 3. How groups are executed (`src/register_steps.rt`, `src/memory_steps.rt`, `src/call_steps.rt`, `src/frame_steps.rt`), and
//!    how runs are (`src/group_steps.rt`, `specs/Runs.antt`). Which words a group stands for is defined in `rv64_groups`.
#![tactic(auto)]

mod call_steps;
pub mod decoded;
mod frame_steps;
mod group_steps;
pub mod memory;
mod memory_steps;
pub mod operation;
mod pointer_steps;
pub mod processor;
pub mod region;
mod register_steps;
mod word_steps;
