//! Laws alone: the tree that `ssa_build` makes is in SSA form, and its program does what the first one did.
//!
//! The module of each part says which files its proofs are in.
//!
//! 1. The tables of the tree, read off the arrays that it is laid out by (`specs/laid/Tables.antt`), are those of laid code.
//!    So its program refines the first one and is accepted (`laid`; `specs/laid/Laws.antt`).
//! 2. The tree is in SSA form, can be numbered, and has at most two items more for each live entry (`form`; `IsSsaForm`,
//!    `specs/form/Form.antt`). All that the pass makes is `IsSsa`; factor, bound and growth are in `specs/form/Numbers.antt`,
//!    and what the pass means in `specs/form/Ssa.antt`.
//! 3. How the numbers of a program grow by it. So what is made of an accepted program is all that the pass is to make
//!    (`numbers`; `specs/numbers/Laws.antt`).
#![tactic(auto)]

pub mod form;
pub mod laid;
pub mod numbers;
