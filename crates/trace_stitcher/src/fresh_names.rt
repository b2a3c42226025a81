// The names of a trace before any `_` (`src/fresh_names/bases.rt`). They are identifiers (`proofs/lemmas/fresh_names/Identifiers.antt`).
// What they are named by is fresh: see `TakenNames` in `pass_make`.

mod bases;

pub use bases::{not_base, trace_base};
