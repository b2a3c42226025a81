//! The blocks of memory of a running program. Each call faults exactly by the table of faults, and a block that is freed
//! gives its memory back.
//!
//! 1. The blocks, and how many cells are live (`src/cells.rt`).
//! 2. Where blocks and cells are found (`src/block.rt`).
//! 3. How they are kept: a kind of one byte and a word for each cell (`src/stored_block.rt`, `src/stored_cell.rt`).
#![tactic(auto)]

mod block;
mod cells;
mod fault;
mod stored_block;
mod stored_cell;

pub use cells::Cells;
pub use fault::HeapFault;
