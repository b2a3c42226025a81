//! The words of the machine, their 32 bits, and what each of them does: RV64I with multiplication and division, as the RISC-V
//! Unprivileged ISA manual defines them. Encoding and decoding are each other's inverse.
//!
//! 1. Words (`src/word.rt`) and their fields (`src/field.rt`), from a word to its bits and back (`src/encoding.rt`,
//!    `src/decoding.rt`; `specs/Encoding.antt`), images of words (`src/image.rt`), and why a program has none (`src/fault.rt`).
//! 2. What operations compute (`specs/Arithmetic.antt`), and what each word does to the machine (`specs/Machine.antt`); its
//!    traps are in `src/trap.rt`.
//! 3. The regions of memory (`src/region.rt`, `specs/Region.antt`).
//! 4. Environment calls and their numbers (`src/call.rt`), what they do, and how live blocks slide: `live_cells`,
//!    `slid_cells`, `slid_table` (`specs/Environment.antt`).
//! 5. The points of an image, at which the items of its program begin (`src/points.rt`, `specs/Points.antt`), and hexadecimal
//!    digits, in which words are listed (`specs/Hexadecimal.antt`).
//! 6. Lemmas for the crates above: how many cells are live, and what slid cells and tables hold (`proofs/Live.antt`,
//!    `proofs/Slid.antt`).
#![tactic(auto)]

pub mod call;
pub mod decoding;
pub mod encoding;
pub mod fault;
pub mod field;
pub mod image;
pub mod points;
pub mod region;
pub mod trap;
pub mod word;
