//! Laws alone: what the edit of a program owes to be a pass, and what follows.
//!
//! 1. The plan of a pass: which points, locations and states of a program match those of the result (`plan`;
//!    `specs/plan/Plan.antt`); code with other items put in (`specs/plan/Spliced.antt`, `Lines.antt`), or with `nop` for some
//!    (`specs/plan/Marked.antt`).
//! 2. Plans by names in place of numbers, also with renamed variables (`names`). Names that are new in a function
//!    (`specs/labels/Fresh.antt`), and labels that differ where others are put in (`proofs/lemmas/labels/`).
//! 3. Matched states make matched steps, so the result refines the program (`steps`).
//! 4. The walks of the result are matched by walks of the program (`walks`); so the result, by its types and walks, is
//!    accepted (`acceptance`).
//! 5. How the numbers of a program (locations, arguments, depth, entries, width) grow: from plans to functions, and from
//!    functions to programs (`numbers`; `NumbersWithin`, `specs/numbers/Numbers.antt`).
//!
//! Definitions are in `specs/`, lemmas in `proofs/lemmas/`, in a folder for each of these parts.
#![tactic(auto)]

pub mod acceptance;
pub mod names;
pub mod numbers;
pub mod plan;
pub mod steps;
pub mod walks;
