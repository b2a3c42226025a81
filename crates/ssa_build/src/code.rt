// Code in SSA form, laid out by arrays: which definition each location has at a point, what stands for each definition, and the
// names of definitions.
//
// 1. Items under other names (`src/code/items.rt`), and `get`s and `set`s (`src/code/copies.rt`, `specs/code/Items.antt`).
// 2. The names of all definitions (`src/code/names.rt`), and for each point the labels for which `set`s stand before it
//    (`src/code/rows.rt`).
// 3. One sweep over the items of a function lays out its code (`src/code/sweep.rt`, `specs/code/Sweep.antt`, `proofs/lemmas/code/Laying.antt`),
//    by what it is lent (`src/code/layout.rt`, `specs/code/Layout.antt`).

mod copies;
mod items;
mod layout;
mod names;
mod rows;
mod sweep;

pub use layout::Layout;
pub use names::{all_names, variables_written};
pub use rows::leaving_rows;
pub use sweep::laid_code;
