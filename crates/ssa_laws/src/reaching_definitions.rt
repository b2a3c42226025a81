// Laws alone: which definition each location has at each point of a function, on its way into SSA form.
//
// Reads are looked up backwards, as Braun and others do ("Simple and Efficient Construction of Static Single Assignment
// Form", 2013, section 2): an item that assigns a variable is a definition of it, and a label gets a definition of each
// location that is live there, by a `get`. The `get`s are the phi functions, and those that are set from one other
// definition alone are trivial.
//
// 1. The tables, and when they agree along each branch (`specs/reaching_definitions/Tables.antt`). Where they do, walks reach a definition
//    before any location has it: a definition dominates its uses (`proofs/lemmas/reaching_definitions/Dominance.antt`).
// 2. The tables that are made item by item (`specs/reaching_definitions/Told.antt`) agree, and have a definition of each location
//    that is live (`proofs/lemmas/reaching_definitions/Made.antt`).
// 3. They still agree where the trivial `get`s are left out and other definitions stand for them (`proofs/lemmas/reaching_definitions/Solved.antt`,
//    `Resolving.antt`), and each location has a definition of its type (`proofs/lemmas/reaching_definitions/Types.antt`).

mod laws;

pub use laws::{tables_agree, tables_keep_types, tables_tell_live};
