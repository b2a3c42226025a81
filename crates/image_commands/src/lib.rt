//! The commands that make an image of a program: `run`, `emit`, `list`, `elf` and `demo`. Each does exactly what its value in
//! `bril_commands` says.
//!
//! 1. From an accepted program to its image (`src/image.rt`).
//! 2. A command each, from the program to what is put and told: `src/run.rt`, `src/emit.rt`, `src/list.rt`, `src/elf.rt` and
//!    `src/demo.rt`.
#![tactic(auto)]

pub mod demo;
pub mod elf;
pub mod emit;
mod image;
pub mod list;
pub mod run;
