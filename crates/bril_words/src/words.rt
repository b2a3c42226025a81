// The words of the command line.

ghost use Rattle.std.specs.Prelude.{◌≡◌, ◌≤◌, false, length, position, IfOk, IfErr};
ghost use Rattle.clap.specs.Simple.{subcommand_rows_of};
ghost use Rattle.clap.specs.Values.{kind_of};
ghost use Rattle.bril_words.specs.Answers.{Answers, IsMisuseOf, PlainAsk, RefusedAlone, Refuses};
ghost use Rattle.bril_words.specs.CommandLine.{arg_words, given_words, is_end, is_refused, matched, matches_ask, takes_args, words_ask};
ghost use Rattle.bril_words.specs.Names.{names_of};
ghost use Rattle.bril_words.specs.Request.{IsActionInRange};

use crate::builders::whole_command;
use crate::misuse::Misuse;
use crate::request::Request;
use crate::subcommands::subcommand_named;
use crate::values::read_found;
use bril_tree::text::Text;
use clap::error::ErrorKind;
use clap::{ArgMatches, Error};
use std::alloc::Global;

/// What the words ask for.
///
/// The words are the program's name, a command, and then, in any order, its operands and the options that it takes
/// (`specs/Subcommands.antt` has a record of each command), each at most once, as `--x v` or `--x=v`; two operands stand in the order of
/// the record. After these some commands take `--` and the arguments of the program, which are any words. Where an option doesn't stand
/// it is the empty list, no profile, 8,192 frames, 1,048,576 cells, 1,000,000,000 steps, 16 arrivals and 16 entries.
///
/// `clap` reads the words; where the command takes arguments, those before the first `--`. It takes all words of this form whose paths
/// and values have at least a byte and begin with no `-`, and some others; the values are then those of its matches.
///
/// `Words`: `clap` refuses the words. `Value`: it takes them, and this is the first of passes, frames, cells, steps, hot and most
/// whose value has more than 64 names, is no number as `bril_nums::read_int` reads it, or is out of its range.
pub fn read_words<'a>(alloc: Global, words: &'a [Text]) -> Result<Request<'a>, Misuse>
    ensures asked { Answers (words_ask words.now) result }
    ensures plain { PlainAsk words.now }
    ensures refused { RefusedAlone words.now }
    ensures range { IfOk result (λ request. IsActionInRange request.action) }
    ensures few { IfOk result (λ request. length (names_of request.list.now) ≤ 64) }
{
    let (given, args) = cut(words);
    let matches = matches_of(alloc, given)?;
    request_of(alloc, &matches, args)
}

// The words that `clap` is given, and the arguments of the program.
fn cut<'a>(words: &'a [Text]) -> (&'a [Text], &'a [Text])
    ensures given { result.0.now ≡ given_words words.now }
    ensures args { result.1.now ≡ arg_words words.now }
{
    match words {
        [_, word, rest @ ..] if takes_args(word.as_str()) => {
            match end_in(rest) {
                Some(place) => (&words[..place + 2], &rest[place + 1..]),
                None => (words, &rest[rest.len()..]),
            }
        }
        _ => (words, &words[words.len()..]),
    }
}

// Where the first `--` stands.
fn end_in(words: &[Text]) -> Option<usize>
    ensures { result ≡ position is_end words.now }
{
    words.iter().position(|word| word.as_str() == "--")
}

// Whether a word is a command that takes arguments.
fn takes_args(word: &str) -> bool
    ensures { result ≡ takes_args word.now }
{
    match subcommand_named(word) {
        Some(subcommand) => subcommand.form().usage.is_some(),
        None => false,
    }
}

// The matches of words, where `clap` takes them.
fn matches_of<'a>(alloc: Global, given: &'a [Text]) -> Result<ArgMatches<'a>, Misuse>
    ensures taken { IfOk result (λ _. is_refused given.now ≡ false) }
    ensures matched { IfOk result (λ matches. subcommand_rows_of matches ≡ matched given.now) }
    ensures refused { IfErr result (Refuses given.now) }
{
    let command = whole_command(alloc)?;
    match command.try_get_matches_from(given) {
        Ok(matches) => Ok(matches),
        Err(error) => Err(misuse_of(alloc, &error)),
    }
}

// Why `clap` gave no matches.
fn misuse_of(alloc: Global, error: &Error) -> Misuse
    ensures { IsMisuseOf (kind_of error.now) result }
{
    if error.kind() == ErrorKind::OutOfMemory {
        return Misuse::Memory;
    }
    match format!(in alloc; "{error}") {
        Ok(text) => Misuse::Words { text },
        Err(_) => Misuse::Memory,
    }
}

// What matches and arguments ask for.
fn request_of<'a>(
    alloc: Global,
    matches: &ArgMatches<'a>,
    args: &'a [Text],
) -> Result<Request<'a>, Misuse>
    ensures asked { Answers (matches_ask args.now (subcommand_rows_of matches.now)) result }
    ensures range { IfOk result (λ request. IsActionInRange request.action) }
    ensures few { IfOk result (λ request. length (names_of request.list.now) ≤ 64) }
{
    match matches.subcommand() {
        Some((name, found)) => match subcommand_named(name) {
            Some(subcommand) => read_found(subcommand, found, args),
            None => Err(Misuse::Words {
                text: String::new(alloc),
            }),
        },
        None => Err(Misuse::Words {
            text: String::new(alloc),
        }),
    }
}
