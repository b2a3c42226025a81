// Machine words that a command wrote, executed.

use bril_outside::mem_sink::MemSink;
use bril_tree::limits::Limits;
use bril_tree::sequence::Seq;
use bril_tree::value::Value;
use case_text::{LineFault, add_lines};
use rv64_machine::machine::Machine;
use rv64_words::image::Image;
use rv64_words::region::MOST_WORDS;
use std::alloc::Global;

// What the machine has. Its words have their number of frames in them.
const LIMITS: Limits = Limits {
    frames: 1,
    cells: 65_536,
};

const STACK: u32 = 65_536;

const STEPS: u64 = 1_000_000_000;

// How many bytes the words print at most.
const ROOM: u32 = 65_536;

/// Executes the words of a listing, with these ints as the arguments of `main`, and appends how many words were executed and
/// what they printed.
pub fn execute(
    alloc: Global,
    listing: &[u8],
    args: &[Value],
    shown: &mut Vec<u8>,
) -> Result<(), LineFault> {
    let words = words_of(alloc, listing)?;
    if words.as_slice().len() > MOST_WORDS || args.len() > 1_000 {
        return Err(LineFault::Form);
    }
    let image = Image {
        words,
        guards: Seq::new(alloc),
        stack: STACK,
    };
    let mut machine = Machine::new(alloc, &image, args, LIMITS)?;
    let mut out = MemSink::new(alloc, ROOM, Seq::new(alloc))?;
    let _answer = machine.run(STEPS, &mut out);
    let done = machine.done();
    let told = format!(in alloc; "words {done}\n")?;
    shown.extend_from_slice(told.as_bytes())?;
    add_lines(alloc, "", out.bytes(), shown)?;
    Ok(())
}

// The words of the lines, each in hexadecimal.
fn words_of(alloc: Global, listing: &[u8]) -> Result<Seq<u32>, LineFault> {
    let text = str::from_utf8(listing).map_err(|_| LineFault::Form)?;
    let mut words = Seq::new(alloc);
    for line in text.lines() {
        words.push(u32::from_str_radix(line, 16).map_err(|_| LineFault::Form)?)?;
    }
    Ok(words)
}
