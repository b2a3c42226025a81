// The `get`s that are wanted in a function, on the way into SSA form: one behind each reached label for each location that is
// live there.
//
// 1. The labels at which each location is live, location by location (`src/gets/found.rt`, `specs/gets/Found.antt`).
// 2. Rows of `get`s in one list, and their definitions' numbers (`src/gets/rows.rt`, `specs/gets/Rows.antt`).
// 3. Both together (`src/gets/wants.rt`, `specs/gets/Wants.antt`).

mod found;
mod rows;
mod wants;

pub use wants::{Wants, wanted_gets};
