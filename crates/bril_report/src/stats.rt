// What is told of the counts of a run of the machine.

ghost use Rattle.std.specs.Prelude.{◌≡◌};
ghost use Rattle.bril_report.specs.Stats.{words_pieces, guard_pieces, function_name};
ghost use Rattle.bril_report.specs.Told.{Tells};

use crate::error_output::ErrorOutput;
use crate::report::put_number;
use bril_outside::sink::Sink;
use bril_tree::program::Prog;
use itoa::Buffer;

/// Puts the line that tells how many words were executed on the error output.
pub fn put_words<E: Sink>(err: &mut ErrorOutput<'_, E>, words: u64)
    ensures { Tells E.seen err.old (words_pieces words) err.new }
{
    put_number(err, b"words ", words);
}

/// Puts the line that tells how often the guard at an item of a function failed on the error output.
pub fn put_guard<E: Sink>(
    err: &mut ErrorOutput<'_, E>,
    program: &Prog,
    func: u32,
    item: u32,
    fails: u64,
)
    ensures { Tells E.seen err.old (guard_pieces (function_name program.now func) item fails) err.new }
{
    let mut number = Buffer::new();
    let mut count = Buffer::new();
    err.put_all(&[
        b"guard @",
        function_name(program, func),
        b" ",
        number.format(item).as_bytes(),
        b" fails ",
        count.format(fails).as_bytes(),
        b"\n",
    ]);
}

// The name of a function.
fn function_name(program: &Prog, func: u32) -> &[u8]
    ensures { result.now ≡ function_name program.now func }
{
    match program.funcs.as_slice().get(func as usize) {
        None => b"",
        Some(func) => func.name.as_bytes(),
    }
}
