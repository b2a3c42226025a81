//! The tree of a program in SSA form is made, as arrays of the definitions lay it out. `ssa_form_laws` proves of this tree
//! what the pass promises.
//!
//! 1. What each wanted `get` is set from, and which definition stands for each (`sources`; `AreRepresentatives`,
//!    `specs/sources/Sources.antt`): the sweep over all items (`src/sources/sweep.rt`, `specs/sources/Sweeping.antt`), and
//!    the same without the trivial `get`s (`src/sources/solved.rt`). Each `get` that stays has two operands that differ
//!    (`operands`).
//! 2. Trivial phis: which definitions stand for others, once the trivial `get`s are left out (`trivial_phis`; `IsResolved`,
//!    `specs/trivial_phis/Trivial.antt`): what `get`s are set from (`src/trivial_phis/operands.rt`), definitions in classes
//!    (`classes.rt`), and the loop (`trivial.rt`).
//! 3. A name for each definition that stays. No two are one, and they don't grow from pass to pass (`fresh_names`;
//!    `definition_name`, `specs/fresh_names/Names.antt`).
//! 4. The code of a function in one sweep (`code`; `IsLaidCode`, `specs/code/Sweep.antt`): items under the names of
//!    definitions (`src/code/items.rt`, `names.rt`), `get`s and `set`s (`copies.rt`), the labels for which `set`s stand
//!    before a point (`rows.rt`, `specs/code/Rows.antt`), and the sweep (`src/code/sweep.rt`), by what it is lent (`layout.rt`,
//!    `specs/code/Layout.antt`).
//! 5. The whole tree (`tree`; `IsLaidTree`, `specs/tree/Made.antt`), and where its items stand (`specs/tree/Standing.antt`).
#![tactic(auto)]

pub mod code;
pub mod fresh_names;
pub mod operands;
pub mod sources;
pub mod tree;
pub mod trivial_phis;
