// The call that other languages make.

ghost use Rattle.roolvist_lib.specs.Answered.{IsAnswered};
ghost use Rattle.roolvist_lib.specs.Given.{given_by};
ghost use Rattle.roolvist_lib.specs.Plain.{SaysPlainly};

use crate::call::call_as;
use crate::written::Written;
use std::alloc::Global;
use std::marker::Brand;

/// Does what the words of a command line ask for, with the shipped passes, over files and outputs in memory, and answers its exit status.
///
/// `bytes` is made of pieces, one after another, whose lengths are `lengths`. The first `words` pieces are the words of the command line,
/// the program's name first. Of those behind them each two are a file: its path and its bytes; of two with one path the last counts. Where
/// the pieces don't fit, as where they are longer than `bytes`, the last path has no bytes, or a word or a path is no UTF-8, the status is 64
/// and nothing is written. Where memory runs out before anything is done it is 71, and nothing is written.
///
/// Else the status is what the program promises of these words and files (`IsPromised` in `specs/Seen.antt`), and `out` and `err` hold the
/// first of what was written to the outputs; `written` says how many bytes. The clause says this of all promises in which the passes don't
/// occur; `call_as` has those in which they do. 74 comes exactly where more was written than `out` has room for (`full`, `cut` of
/// `IsDoneSo`), but for 71 in its place; an `err` that has no room for all changes nothing else.
#[unsafe(no_mangle)]
pub extern "C" fn roolvist_call(
    alloc: Global,
    bytes: &[u8],
    lengths: &[usize],
    words: usize,
    out: &mut [u8],
    err: &mut [u8],
    written: &mut Written,
) -> u8
    ensures { IsAnswered SaysPlainly (given_by bytes.now lengths.now words) result (record { out = out.old; out_after = out.new; out_count = written.new.out; err = err.old; err_after = err.new; err_count = written.new.err }) }
{
    call_as::<Brand>(alloc, bytes, lengths, words, out, err, written)
}
