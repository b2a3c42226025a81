// Laws alone: the tree that `ssa_build::tree` makes is in SSA form.
//
// 1. What the pass into SSA form makes and means: SSA form (`specs/form/Form.antt`), its factor and its bound, and how the numbers of a
//    program grow (`specs/form/Numbers.antt`), all in one (`specs/form/Ssa.antt`). There is one of each number (`proofs/lemmas/form/Having.antt`).
//    Its row of a budget (`specs/form/Row.antt`; `proofs/lemmas/form/Entries.antt`, `proofs/Shipped.antt`).
// 2. The points of laid code, and what stands there (`proofs/lemmas/form/Points.antt`, `Fronts.antt`).
// 3. Each variable is assigned by one item, or is an argument and by none (`proofs/lemmas/form/Single.antt`); each `get` stands behind a label, with
//    only `get`s between (`proofs/lemmas/form/Following.antt`), and has two `set`s that differ (`proofs/lemmas/form/Edges.antt`, `Needed.antt`);
//    what a `set` assigns has a `get` (`proofs/lemmas/form/Given.antt`).
// 4. The tree can be numbered (`proofs/lemmas/form/Edits.antt`). Beside `get`s and `set`s it has as many items as the
//    program has in all (`proofs/lemmas/form/Others.antt`), and at most two items more for each live entry (`proofs/lemmas/form/Sizes.antt`).
// 5. So it is for all functions of a program (`proofs/lemmas/form/Trees.antt`).

mod laws;

pub use laws::{
    laid_trees_are_edits, laid_trees_are_in_form, laid_trees_are_short, live_entries_are_few,
    ssa_has_numbers, ssa_keeps_numbers,
};
