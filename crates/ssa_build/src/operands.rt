// Laws alone: what the `get`s of a function are set from, on the way into SSA form, and which of them stay.
//
// The operands of a `get` are the definitions that its location has where edges to its label leave: `specs/operands/Operands.antt`.
// Once the trivial `get`s are left out (`trivial_phis`), the tables of definitions are solved, and each `get` that stays has
// two operands that differ: one that is set from itself alone would be reached by no walk (`proofs/lemmas/operands/Needed.antt`). All that is asked of tables holds of accepted programs (`proofs/lemmas/operands/Accepted.antt`).

mod laws;

pub use laws::{accepted_code_is_tabled, left_gets_are_needed, resolved_tables_are_solved};
