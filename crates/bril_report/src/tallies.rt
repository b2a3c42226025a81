// What is told of the tally of a pass.

ghost use Rattle.bril_report.specs.Tallies.{tally_pieces};
ghost use Rattle.bril_report.specs.Told.{Tells};

use crate::error_output::ErrorOutput;
use bril_outside::sink::Sink;
use itoa::Buffer;

/// Puts the line of a pass of this name on the error output: how often it ran, and how many items it was given and made.
pub fn put_tally<E: Sink>(
    err: &mut ErrorOutput<'_, E>,
    name: &[u8],
    runs: u64,
    seen: u64,
    made: u64,
)
    ensures { Tells E.seen err.old (tally_pieces name.now runs seen made) err.new }
{
    let mut first = Buffer::new();
    let mut second = Buffer::new();
    let mut third = Buffer::new();
    err.put_all(&[
        name,
        b" runs ",
        first.format(runs).as_bytes(),
        b" seen ",
        second.format(seen).as_bytes(),
        b" made ",
        third.format(made).as_bytes(),
        b"\n",
    ]);
}
