//! Laws alone: what SSA form is made of, and why a program in SSA form does what the program before it did.
//!
//! The pass `ssa` stands on it (`braun_ssa`). The module of each part says which files it has.
//!
//! 1. Code with copies put in, `get`s and `set`s under names of their own at each point, refines its program, and its walks
//!    are accepted (`inserted_copies`; `AreInserted`, `specs/inserted_copies/Inserted.antt`).
//! 2. Which definition each location has at each point: tables, and when they agree (`reaching_definitions`;
//!    `specs/reaching_definitions/Tables.antt`), made item by item (`Told.antt`). A definition comes before its uses; what
//!    else follows of tables is in `Laws.antt`.
//! 3. Code that is laid out by these tables, with `get`s after labels and `set`s where edges leave, is code with copies put
//!    in, and is accepted (`layout`; `specs/layout/Laid.antt`, `Accepted.antt`). When it is in SSA form: `Form.antt`.
//! 4. How many copies that takes: the live entries of a function. The number is there, since edges and liveness are decidable
//!    (`live_entries`; `specs/live_entries/LiveEntries.antt`).
#![tactic(auto)]

pub mod inserted_copies;
pub mod layout;
pub mod live_entries;
pub mod reaching_definitions;
