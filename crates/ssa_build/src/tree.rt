// The tree of a program in SSA form.
//
// For each function the wanted `get`s are found, and what they are set from (`ssa_search::gets`, `sources`); all but the trivial ones
// stay, each definition gets a name, and the code is laid out (`code`).
//
// 1. What is made of a function and of a program (`specs/tree/Made.antt`).
// 2. The code (`src/tree/function.rt`, `src/tree/tree.rt`).
// 3. Where items stand in it (`specs/tree/Standing.antt`, `proofs/lemmas/tree/Standing.antt`).

mod function;
mod laws;
mod tree;

pub use laws::laid_items_stand;
pub use tree::ssa_tree;
