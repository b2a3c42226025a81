//! Code over the numbered slots of a frame, with resolved jumps: the form of a program from which machine words are made.
//! `lower` is proved to make exactly the program's steps, for every operation.
//!
//! 1. What the code does (`specs/Meaning.antt`), which code stands for a program (`specs/Lowered.antt`), and what items
//!    assign and where they go (`specs/Flow.antt`).
//! 2. Items, functions and programs over slots (`src/item.rt`, `src/slots.rt`).
//! 3. From a program to its code (`src/program.rt`, `src/items.rt`), by groups of operations (`src/operations.rt`,
//!    `src/effects.rt`), with how many speculations are open at a point and which is the newest (`src/depths.rt`), what printed
//!    variables hold (`src/kinds.rt`), the slots and their numbers (`src/numbering.rt`), and the values of constants
//!    (`src/numbers.rt`).
//! 4. Laws: slots are numbered; items go, assign and read as their instructions (`specs/Laws.antt`, `src/laws.rt`).
#![tactic(auto)]

mod depths;
mod effects;
mod item;
mod items;
mod kinds;
mod laws;
mod numbering;
mod numbers;
mod operations;
mod program;
mod slots;

pub use item::{Printed, Slot, SlotItem};
pub use laws::{
    items_are_instructions, items_use_slots, slots_have_numbers, steps_read_no_program,
};
pub use program::lower;
pub use slots::{SlotFunction, Slots};
