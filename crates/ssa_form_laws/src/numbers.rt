// Laws alone: what is made of a program in SSA form is all that the pass is to make (`IsSsa` of `form`).
//
// 1. The branches from an item, and what its tree tells of them (`proofs/lemmas/numbers/Leading.antt`).
// 2. Each walk of the result goes beside one of the function, with as many open sites, and each item that walks lead to has its home
//    reached (`proofs/lemmas/numbers/Beside.antt`, `Sites.antt`). So what no walk leads to is a label or a `nop` (`proofs/lemmas/numbers/Silent.antt`).
// 3. Each entry of a label is one of the function's, so there are no more, nor more from one leave point, nor more open sites
//    (`proofs/lemmas/numbers/Entering.antt`).
// 4. Each name is that of a definition, so the locations are at most twice as many as these; the lists of arguments are no longer
//    (`proofs/lemmas/numbers/Names.antt`).
// 5. So it is for all functions of a program (`proofs/lemmas/numbers/Whole.antt`).

mod laws;

pub use laws::laid_trees_are_ssa;
