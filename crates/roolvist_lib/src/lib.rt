//! The call for other languages: the command line of Roolvist over files and outputs in memory.
//!
//! 1. The call (`src/export.rt`, `src/call.rt`; `specs/Answered.antt`).
//! 2. What it is given: bytes that are cut into words and files (`src/given.rt`, `src/untold.rt`, `specs/Given.antt`).
//! 3. Its promises, in which the boxes of the passes don't occur (`src/reader.rt`, `src/calling.rt`, `specs/Seen.antt`).
//! 4. The buffers of its two outputs (`src/buffer_sink.rt`, `src/written.rt`, `specs/Buffers.antt`).
#![tactic(auto)]

mod buffer_sink;
mod call;
mod calling;
pub mod export;
mod given;
mod reader;
mod untold;
mod written;
