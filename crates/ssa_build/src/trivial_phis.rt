// Which definitions stand for others once the trivial `get`s of a function are left out, on the way into SSA form.
//
// A `get` behind a label is a phi function, and the definitions that it is set from, one for each edge that enters the
// label, are its operands. It is trivial where all of them stand for it or for one other definition; that one then stands
// for it, which may make other `get`s trivial (Braun and others, "Simple and Efficient Construction of Static Single
// Assignment Form", 2013, section 2.2).
//
// 1. The operands by their `get`s (`src/trivial_phis/operands.rt`).
// 2. Definitions in classes, with the one that stands for each class: union-find with paths made shorter (`src/trivial_phis/classes.rt`,
//    `specs/trivial_phis/Classes.antt`).
// 3. The loop (`src/trivial_phis/trivial.rt`). A look at a `get` goes on from where the last one stopped, up to a second operand; the
//    `get`s that look at a class look again when it is joined. The last round looks at all `get`s, so none that is left is
//    trivial (`specs/trivial_phis/Trivial.antt`: `IsResolved`).

mod classes;
mod operands;
mod trivial;

pub use operands::{Operand, Operands};
pub use trivial::representatives;
