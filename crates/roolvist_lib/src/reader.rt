// Readings of what a call promises.

ghost use Rattle.roolvist_lib.specs.Seen.{Reading};

use std::marker::Brand;

/// What is said of a call: a statement in which the passes don't occur, and that follows from what the program promises of its status.
pub trait Reader {
    ghost reading: { Reading };
}

impl Reader for Brand {
    ghost reading = { record { Says = λ status s. Unit {0}; follows = λ meaning counts passes passes' status s promised. tt } };
}
