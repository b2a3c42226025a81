// Laws alone: code in SSA form as it is laid out by tables of definitions.
//
// Behind a label stand the `get`s of the locations that are live there, and where an edge leaves for the label stand the
// `set`s of what these locations have there: before a jump, before the `speculate` whose speculation an abort ends, and
// between an item and the label that comes next. Each definition is a variable of a name of its own.
//
// 1. The layout (`specs/layout/Laid.antt`), and which location of the result holds what one of the program does
//    (`proofs/lemmas/layout/Slots.antt`).
// 2. By the tables, this is a program with copies put in: so it refines the program (`proofs/lemmas/layout/Refines.antt`).
// 3. Each `set` reads what every walk has assigned (`proofs/lemmas/layout/Available.antt`, `Assured.antt`), so the walks of the result
//    are accepted (`proofs/lemmas/layout/Walks.antt`).
// 4. Where each definition has its type, each item fits by itself (`proofs/lemmas/layout/Fitting.antt`, `Pieces.antt`, `Given.antt`,
//    `Stays.antt`): so the result is accepted.
// 5. It is in SSA form: each variable is assigned by one item, or is an argument and by none (`proofs/lemmas/layout/Once.antt`), and each
//    `get` stands behind a label with only `get`s between (`proofs/lemmas/layout/Behind.antt`, `specs/layout/Form.antt`).

mod laws;

pub use laws::{
    definitions_stand_once, gets_follow_labels, laid_code_is_accepted, laid_code_refines,
};
