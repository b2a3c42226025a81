// What the wanted `get`s of a function are set from, on the way into SSA form, and which definition stands for each.
//
// One sweep over all items follows the tables of definitions in an array (`ssa_search::renaming`). Where an edge leaves to a label, each `get`
// there is set from what the array tells of its location: these are its operands (`src/sources/sweep.rt`). The trivial `get`s are left out
// then (`trivial_phis`, `src/sources/solved.rt`).

mod solved;
mod sweep;

pub use solved::solved_gets;
pub use sweep::operands_of;
