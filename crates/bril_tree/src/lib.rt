//! Bril programs as trees of names and as numbered programs, and all that is said of them: their form, which of them are
//! accepted, and what they do.
//!
//! The definitions in `specs/` are the language; docs/MAP.md leads from each rule to its definition.
//!
//! 1. Lists, bytes, texts and names (`src/sequence.rt`, `src/bytes.rt`, `src/text.rt`, `src/name.rt`).
//! 2. Programs by names (`src/tree.rt`, `src/function_tree.rt`, with copies of items, `src/import.rt`) and by numbers
//!    (`src/program.rt`, `src/numbered_function.rt`, `src/numbered.rt`).
//! 3. Types and whether two are one (`src/types.rt`, `src/typing.rt`), values (`src/value.rt`), operations
//!    (`src/operation.rt`), those on one and on two variables (`src/operators.rt`), the limits of a run (`src/limits.rt`).
//! 4. What is asked of a program: shapes (`src/shape.rt`), sizes (`src/size.rt`), edges (`src/edge.rt`), labels
//!    (`src/labels.rt`), literals (`src/literals.rt`); and when it is accepted (`specs/Accepted.antt`).
//! 5. A variable or its shadow (`src/place.rt`), where its value is (`src/home.rt`), and in which registers it may
//!    be (`specs/Home.antt`).
//! 6. What a program does: a state (`specs/State.antt`), a step of it (`specs/Step.antt`), runs and when one program refines
//!    another (`specs/Run.antt`).
//! 7. What analyses and code generation say of programs: edges and where they leave (`specs/Leaving.antt`), live locations
//!    (`specs/Live.antt`), the words of a frame (`specs/FrameWords.antt`).
//! 8. Proved (`src/laws.rt`): the types hold what they were given, each operation is found by its own name alone, a program
//!    has one tree, runs that ended rest, refinement composes, and what is live was assigned.
#![tactic(auto)]

pub mod bytes;
pub mod edge;
pub mod function_tree;
pub mod home;
pub mod import;
mod labels;
pub mod laws;
pub mod limits;
pub mod literals;
pub mod name;
pub mod numbered;
pub mod numbered_function;
pub mod operation;
pub mod operators;
pub mod place;
pub mod program;
pub mod sequence;
mod shape;
mod size;
pub mod text;
pub mod tree;
pub mod types;
pub mod typing;
pub mod value;
