//! Laws alone: which homes locations may share, and which locations a `speculate` has to save, so that no value is lost that
//! is needed.
//!
//! While a program runs on the machine, each location of a function, a variable or a shadow, is at its home: a register or a
//! word of the frame. Two locations may share a home where no point needs both. A `speculate` saves the words of those
//! locations that its guards give back: they are live at the label of a guard, and were assigned since.
//!
//! 1. How long a speculation stays open, and its ways out (`specs/Open.antt`).
//! 2. Which locations are saved at a level (`IsSaved`, `specs/Saved.antt`), and which ones a point needs at their homes
//!    (`specs/Needed.antt`).
//! 3. What homes promise (`IsPlaced`, `specs/Placed.antt`), and which homes a location of a function may have (`IsHomeOf`,
//!    `specs/Homes.antt`).
//! 4. Homes that only locations share whose spans don't meet keep that promise (`specs/Spans.antt`, `proofs/Spans.antt`), and
//!    so do homes of which no two are one (`proofs/Different.antt`).
//! 5. How searches find what is saved (`specs/Search.antt`, `proofs/Saving.antt`).
//! 6. What homes and shadow words hold of a frame (`specs/Holding.antt`), and that each kind of item keeps that
//!    (`proofs/Filling.antt`, `proofs/Speculating.antt`, `proofs/Calling.antt`).
#![tactic(auto)]

mod laws;

pub use laws::{homes_are_placed, saved_are_found};
