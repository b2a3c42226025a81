// The command line.

ghost use Rattle.std.specs.Prelude.{◌≡◌, bytes_eq, drop, false, find, true};
ghost use Rattle.bril_explain.specs.Command.{asks_count, asks_explain, asks_status, is_option, word};
ghost use Rattle.bril_explain.specs.Executed.{TellsCount};
ghost use Rattle.bril_explain.specs.Explained.{IsExplained};
ghost use Rattle.bril_explain.specs.Meaning.{TellsMeaning, fits};

use crate::counting::count;
use crate::first_fault::explain;
use crate::lines::Row;
use crate::meaning::tell_meaning;
use bril_outside::files::Files;
use bril_outside::sink::Sink;
use bril_report::ErrorOutput;
use bril_tree::text::Text;
use std::alloc::Global;

/// Does what the words of a command line ask for, the program's name first, and answers its exit status.
///
/// `FILE`: the first fault of the program is explained. `--status LINE`: by the rows, what a line means that a command wrote. `--count FILE`
/// and `--count FILE -- ARGS`: the program is interpreted, and its instructions are counted. With any other words the usage is told, with
/// the status 64.
pub fn answer<F: Files, O: Sink, E: Sink>(
    alloc: Global,
    words: &[Text],
    rows: &[Row],
    files: &mut F,
    out: &mut O,
    err: &mut ErrorOutput<'_, E>,
) -> u8
    ensures explains { asks_explain words.now ≡ true → IsExplained E.seen result (F.seen files.old) (F.seen files.new) (word words.now 1) err.old err.new }
    ensures means { asks_explain words.now ≡ false → asks_status words.now ≡ true → TellsMeaning (find (λ row. fits row (word words.now 2)) rows.now) result (O.seen out.old) (O.seen out.new) }
    ensures counts { asks_explain words.now ≡ false → asks_status words.now ≡ false → asks_count words.now ≡ true → TellsCount E.seen result (F.seen files.old) (F.seen files.new) (word words.now 2) (drop 4 words.now) (O.seen out.old) (O.seen out.new) err.old err.new }
    ensures misuse { asks_explain words.now ≡ false → asks_status words.now ≡ false → asks_count words.now ≡ false → result ≡ 64 }
{
    if asks_explain(words) {
        let file = word_at(words, 1);
        explain(alloc, file, files, err)
    } else if asks_status(words) {
        let line = word_at(words, 2);
        tell_meaning(rows, line.as_bytes(), out, err)
    } else if asks_count(words) {
        let root = word_at(words, 2);
        let args = behind_separator(words);
        count(alloc, root, args, files, out, err)
    } else {
        err.put(b"usage: roolvist-explain FILE, or --status LINE, or --count FILE [-- ARGS]\n");
        64
    }
}

// The word at a place, empty where there is none.
fn word_at(words: &[Text], place: usize) -> &str
    ensures { result.now ≡ word words.now place }
{
    match words.get(place) {
        None => "",
        Some(word) => word.as_str(),
    }
}

// Whether the one word is a file.
fn asks_explain(words: &[Text]) -> bool
    ensures { result ≡ asks_explain words.now }
{
    words.len() == 2 && !is_option(word_at(words, 1).as_bytes())
}

// Whether the words are `--status` and a line.
fn asks_status(words: &[Text]) -> bool
    ensures { result ≡ asks_status words.now }
{
    words.len() == 3 && is_same(word_at(words, 1).as_bytes(), b"--status")
}

// Whether the words are `--count`, a file, and perhaps `--` and the arguments.
fn asks_count(words: &[Text]) -> bool
    ensures { result ≡ asks_count words.now }
{
    words.len() >= 3
        && is_same(word_at(words, 1).as_bytes(), b"--count")
        && (words.len() == 3 || is_same(word_at(words, 3).as_bytes(), b"--"))
}

// The words behind the separator, none where there is no such word.
fn behind_separator(words: &[Text]) -> &[Text]
    ensures { result.now ≡ drop 4 words.now }
{
    if words.len() < 4 {
        &words[words.len()..]
    } else {
        &words[4..]
    }
}

// Whether a word begins as an option does.
fn is_option(word: &[u8]) -> bool
    ensures { result ≡ is_option word.now }
{
    match word {
        [] => false,
        [first, ..] => *first == b'-',
    }
}

// Whether two words are the same.
fn is_same(word: &[u8], other: &[u8]) -> bool
    ensures { result ≡ bytes_eq word.now other.now }
{
    word == other
}
