// Laws alone: a program with the traces of a profile's entries does what the program does.
//
// An attempted trace is no step of the program until its `commit`: then all that it laid was done. A guard that fails gives back the
// variables, shadows, blocks and output that the program has just behind the entry's label (`specs/refinement/Attempts.antt`).
//
// 1. Where the old items stand, and what stands between them (`specs/refinement/Stitched.antt`): so it is in what the pass makes
//    (`proofs/lemmas/refinement/Laying.antt`).
// 2. A laid item does the same in both programs: it faults, or it changes locations alone (`proofs/lemmas/refinement/Straight.antt`).
// 3. The plan (`proofs/lemmas/refinement/Plans.antt`); along a trace the result gets to its end, or is back behind the label
//    (`proofs/lemmas/refinement/Along.antt`); so it refines the program (`proofs/lemmas/refinement/Refining.antt`, `proofs/lemmas/refinement/Refines.antt`).
// 4. Nothing between a trace's `speculate` and its `commit` prints, stores or calls (`proofs/lemmas/refinement/Quiet.antt`).
// 5. Where the result stands at a `speculate`, the program stands behind the label, and both hold the same
//    (`proofs/lemmas/refinement/Behind.antt`, `Starting.antt`). From there an attempt changes locations alone, and a guard that fails gives
//    them back (`Attempting.antt`).

mod laws;

pub use laws::{traces_are_quiet, traces_give_back, traces_refine, traces_start_alike};
