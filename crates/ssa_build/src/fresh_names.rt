// Names for the definitions of a function, on its way into SSA form.
//
// Definitions have numbers, and each needs a name of its own. An argument keeps its name. Any other definition has the name of
// its variable as far as its last `.`, a `.`, and its number: `sum`, which is defined three times, becomes `sum.4`, `sum.7` and
// `sum.9`, and a later pass cuts these numbers off again, so names don't grow from pass to pass. Two such names differ by their
// numbers, whatever stands before them. They differ from arguments without a `.`; and where some argument has one, they
// begin with more `_` than it does.
//
// 1. The names (`specs/fresh_names/Names.antt`) and how they are made (`src/fresh_names/names.rt`, `proofs/lemmas/fresh_names/Texts.antt`).
// 2. No two definitions have one name, and names don't grow (`src/fresh_names/laws.rt`, `specs/fresh_names/Laws.antt`, `proofs/lemmas/fresh_names/Differing.antt`).

mod laws;
mod names;

pub use laws::{names_differ, names_stay_short};
pub use names::{definition_name, front};
