// Laws alone: a program with the traces of a profile's entries is accepted.
//
// 1. Where each walk of the result stands: outside all traces, matched by a walk of the program, or within one, whose `speculate` is
//    its newest open site (`proofs/lemmas/acceptance/Standing.antt`, `proofs/lemmas/acceptance/Walking.antt`).
// 2. So its walks are accepted (`proofs/lemmas/acceptance/Blocks.antt`, `proofs/lemmas/acceptance/Placing.antt`).
// 3. Which items stand in the result (`proofs/lemmas/acceptance/Sorted.antt`), and that each has its types (`proofs/lemmas/acceptance/Accepting.antt`): so the result is
//    accepted (`proofs/lemmas/acceptance/Accepted.antt`).

mod laws;

pub use laws::traces_are_accepted;
