// Laws alone: a program with the traces of a profile's entries, as the pass `trace` makes it.
//
// Behind the label of each entry that fits stands its trace: the items of its path, between a `speculate` and its `commit`, each
// branch as a guard; a jump to where the path stopped; and a label to which the guards go, and behind which the old code follows.
//
// 1. The lines of a trace (`specs/lines/Lines.antt`), its names (`specs/lines/Names.antt`), and what is made of a tree and of a program
//    (`specs/lines/Traced.antt`).
// 2. Nothing between `speculate` and `commit` prints, stores, or calls (`proofs/lemmas/lines/Quiet.antt`).
// 3. The bound on the items (`specs/lines/Bound.antt`) holds (`proofs/lemmas/lines/Bound.antt`).
// 4. The tree can be numbered: its labels differ, and each that an item names is there (`proofs/lemmas/lines/Differing.antt`,
//    `Known.antt`, `Sound.antt`).

mod laws;

pub use laws::traces_are_well_laid;
