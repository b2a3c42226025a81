// Laws alone: code with copies put in, on the way into SSA form.
//
// The result has the items of a program in their order, each under names that may differ from point to point, and `get`s
// and `set`s between them, which copy a variable's shadow and to a shadow. Where the program had a `get` or a `set`, a
// `nop` stands.
//
// 1. What such a result is, and which of its locations holds what a location of the program does: a location is looked
//    through the copies that are still to come (`specs/inserted_copies/Inserted.antt`).
// 2. What a copy leaves in each location (`proofs/lemmas/inserted_copies/Copies.antt`), and items under other names (`proofs/lemmas/inserted_copies/Renamed.antt`).
// 3. The result refines the program (`proofs/lemmas/inserted_copies/Refines.antt`), and its walks are accepted where each copy that is put in reads
//    what every walk has assigned (`proofs/lemmas/inserted_copies/Walks.antt`).

mod laws;

pub use laws::{Copied, copies_refine};
