//! Laws alone: what the pass `side` means, by which a guard that fails goes straight to where its branch would have gone, and
//! that a tree with such side exits becomes a program that the pass may make.
//!
//! 1. Which guards are paired (`specs/Paired.antt`): the items between a `speculate` and its `commit` are taken against the walk
//!    from the label that their guards name. A function has one list of pairs (`proofs/lemmas/pairs/Unique.antt`,
//!    `Existing.antt`). From that label a walk comes to the branch of each pair (`specs/Passage.antt`;
//!    `proofs/lemmas/pairs/Passages.antt`, `Placed.antt`), and the guards of pairs rise (`Runs.antt`).
//! 2. What is made of a program (`specs/Sided.antt`), and where its items stand (`specs/Laid.antt`; `proofs/lemmas/layout`). Behind
//!    the label of a side exit no branch and no guard is met (`specs/Straight.antt`; `proofs/lemmas/layout/Straight.antt`).
//! 3. It is accepted: each walk stands at an item of the program, or in a side exit, above a walk of the program
//!    (`proofs/lemmas/acceptance`).
//! 4. It does what the program does, with the factor 1 (`proofs/lemmas/refinement`): a run that commits does the same; where a
//!    paired guard fails, the program walks from the old label to the branch, and the result goes there by its side exit.
//! 5. How its numbers grow (`proofs/lemmas/growth`).
//! 6. What the pass means (`specs/Side.antt`). There is one factor and one bound (`proofs/Numbers.antt`).
//! 7. All of it together: a tree with side exits becomes a program that is accepted, refines the given one and is within the
//!    bound (`proofs/Made.antt`). Its row in a budget: `specs/Row.antt`, `proofs/Shipped.antt`.
#![tactic(auto)]

mod laws;

pub use laws::{
    pairs_are_one_list, side_bounds_are_short, side_exits_are_accepted, side_exits_keep_numbers,
    side_exits_link, side_exits_refine, side_has_numbers,
};
