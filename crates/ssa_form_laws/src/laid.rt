// Laws alone: a tree in SSA form is laid out by tables of definitions, so its program does what the first one did, and is accepted.
//
// What `ssa_build::tree` makes is told by the arrays that its code is laid out by. Here the tables are read off these, and all that
// `ssa_laws::layout` asks of tables is proved of them.
//
// 1. The tables (`specs/laid/Tables.antt`), function by function (`proofs/lemmas/laid/Functions.antt`).
// 2. The `get`s that stay behind a label, and how many there are (`proofs/lemmas/laid/Kept.antt`); where edges leave to labels
//    (`proofs/lemmas/laid/Leaving.antt`); what a `set` gives there (`proofs/lemmas/laid/Told.antt`); how much stands before an item
//    (`proofs/lemmas/laid/Counting.antt`).
// 3. Names and types of definitions (`proofs/lemmas/laid/Names.antt`, `Typed.antt`), and what stands at each point (`proofs/lemmas/laid/Placing.antt`,
//    `Items.antt`).
// 4. One function is laid out by its tables (`proofs/lemmas/laid/Parts.antt`, `Tables.antt`), and each of its points is one of the program's
//    or put in by them (`proofs/lemmas/laid/Covering.antt`). So it is in all functions (`proofs/lemmas/laid/Laid.antt`, `Accepted.antt`).

mod laws;

pub use laws::{laid_trees_are_accepted, laid_trees_are_laid, laid_trees_refine};
