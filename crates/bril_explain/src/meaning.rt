// What a line that a command wrote means.

ghost use Rattle.std.specs.Prelude.{◌≡◌, find};
ghost use Rattle.std.specs.Option.{option_copied};
ghost use Rattle.bril_explain.specs.Meaning.{TellsMeaning, contains, fits};

use crate::lines::Row;
use bril_commands::output::put_text;
use bril_outside::sink::Sink;
use bril_report::{ErrorOutput, Status, say, status_number};

/// Says on the output what a line means, by the first of the rows that fits it; the answer is the exit status. Where none fits, the error
/// output gets a line that says so, and the status is 64.
pub fn tell_meaning<O: Sink, E: Sink>(
    rows: &[Row],
    line: &[u8],
    out: &mut O,
    err: &mut ErrorOutput<'_, E>,
) -> u8
    ensures { TellsMeaning (find (λ row. fits row line.now) rows.now) result (O.seen out.old) (O.seen out.new) }
{
    match row_of(rows, line) {
        None => {
            err.put(b"no command of roolvist writes such a line\n");
            64
        }
        Some(row) => {
            let status = Status::from(put_text(row.means.as_bytes(), out));
            say(err, &status);
            status_number(&status)
        }
    }
}

// The first of the rows that fits a line.
fn row_of<'r>(rows: &'r [Row], line: &[u8]) -> Option<&'r Row>
    ensures { option_copied result ≡ find (λ row. fits row line.now) rows.now }
{
    for row in rows {
        if fits(row, line) {
            return Some(row);
        }
    }
    None
}

// Whether a line begins as a row says, and has what it says.
fn fits(row: &Row, line: &[u8]) -> bool
    ensures { result ≡ fits row.now line.now }
{
    line.starts_with(row.begins.as_bytes()) && contains(line, row.has.as_bytes())
}

// Whether a piece stands somewhere in a line.
fn contains(line: &[u8], piece: &[u8]) -> bool
    ensures { result ≡ contains piece.now line.now }
{
    let mut rest = line;
    while let Some((_, others)) = rest.split_first() {
        if rest.starts_with(piece) {
            return true;
        }
        rest = others;
    }
    rest.starts_with(piece)
}
