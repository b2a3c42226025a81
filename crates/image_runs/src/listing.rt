// The words of an image as text, a line each.

ghost use Rattle.std.specs.Prelude.{◌≡◌, ◌%◌};
ghost use Rattle.bril_commands.specs.Outcome.{WritesPieces};
ghost use Rattle.bril_commands.specs.commands.Emit.{word_line, listing};
ghost use Rattle.bril_report.specs.StageFaults.{status_of};
ghost use Rattle.rv64_words.specs.Hexadecimal.{hex_digit};

use bril_commands::output::hand_on;
use bril_outside::sink::Sink;
use bril_report::Status;

/// Puts the line of each word, eight hexadecimal digits and LF, by one put, and has the output hand on what it holds back. Takes no
/// memory.
///
/// `CannotWrite`: a put failed, or the output failed to hand on.
pub fn put_words<O: Sink>(words: &[u32], out: &mut O) -> Result<(), Status>
    ensures { WritesPieces (status_of result) (listing words.now) (O.seen out.old) (O.seen out.new) }
{
    for word in words {
        out.put(&word_line(*word))?;
    }
    hand_on(out)?;
    Ok(())
}

// A word in eight hexadecimal digits, and LF.
fn word_line(word: u32) -> [u8; 9]
    ensures { result ≡ word_line word }
{
    [
        hex_digit(word >> 28),
        hex_digit(word >> 24),
        hex_digit(word >> 20),
        hex_digit(word >> 16),
        hex_digit(word >> 12),
        hex_digit(word >> 8),
        hex_digit(word >> 4),
        hex_digit(word),
        b'\n',
    ]
}

// The last hexadecimal digit of a number, in lower case.
fn hex_digit(number: u32) -> u8
    ensures { result ≡ hex_digit (number % 16) }
{
    let digit = (number % 16) as u8;
    if digit < 10 {
        b'0' + digit
    } else {
        b'a' + (digit - 10)
    }
}
