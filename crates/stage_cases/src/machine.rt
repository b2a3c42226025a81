// Words and images of the machine.

ghost use Rattle.std.specs.Prelude.{◌≡◌, ◌≤◌, IfOk, length};
ghost use Rattle.rv64_words.specs.Region.{most_words};

use crate::row::add_line;
use bril_outside::mem_sink::MemSink;
use bril_tree::limits::Limits;
use bril_tree::sequence::Seq;
use bril_tree::value::Value;
use case_text::{LineFault, add_lines};
use rv64_machine::machine::Machine;
use rv64_words::decoding::decode;
use rv64_words::encoding::encode;
use rv64_words::image::Image;
use rv64_words::region::MOST_WORDS;
use std::alloc::{AllocError, Global};

// The stack of an image, in words.
const STACK: u32 = 16;

const LIMITS: Limits = Limits {
    frames: 1,
    cells: 2,
};

/// Appends the machine word of the bits, and the bits that it is encoded as.
pub fn add_word(alloc: Global, bits: &str, shown: &mut Vec<u8>) -> Result<(), LineFault> {
    match decode(bits_of(bits)?) {
        None => add_line("none", shown)?,
        Some(word) => {
            let again = encode(word);
            let line = format!(in alloc; "{again:08x} {word:?}")?;
            add_line(line.as_str(), shown)?;
        }
    }
    Ok(())
}

// The number of eight hexadecimal digits.
fn bits_of(word: &str) -> Result<u32, LineFault> {
    u32::from_str_radix(word, 16).map_err(|_| LineFault::Form)
}

/// Appends what two runs of an image answer.
pub fn add_run(alloc: Global, line: &str, shown: &mut Vec<u8>) -> Result<(), LineFault> {
    let (steps, rest) = line.split_once(' ').ok_or(LineFault::Form)?;
    let (put, rest) = rest.split_once(' ').ok_or(LineFault::Form)?;
    let (argument, bits) = rest.split_once(' ').unwrap_or((rest, ""));
    let steps = number_of(steps)?;
    let put = number_of(put)?;
    let argument = int_of(argument)?;
    let image = image_of(alloc, bits)?;
    add_answers(alloc, &image, argument, steps, put, shown)?;
    Ok(())
}

// The image of these words.
fn image_of(alloc: Global, bits: &str) -> Result<Image, LineFault>
    ensures words { IfOk result (λ image. length image.words ≤ most_words) }
    ensures stack { IfOk result (λ image. image.stack ≡ 16) }
{
    let words = words_of(alloc, bits)?;
    if words.as_slice().len() > MOST_WORDS {
        return Err(LineFault::Form);
    }
    Ok(Image {
        words,
        guards: Seq::new(alloc),
        stack: STACK,
    })
}

/// The numbers of eight hexadecimal digits each.
pub fn words_of(alloc: Global, bits: &str) -> Result<Seq<u32>, LineFault> {
    let mut words = Seq::new(alloc);
    for word in bits.split_whitespace() {
        words.push(bits_of(word)?)?;
    }
    Ok(words)
}

/// A number in decimal.
pub fn number_of(word: &str) -> Result<u64, LineFault> {
    word.parse::<u64>().map_err(|_| LineFault::Form)
}

// An int in decimal.
fn int_of(word: &str) -> Result<i64, LineFault> {
    word.parse::<i64>().map_err(|_| LineFault::Form)
}

// An output of which the put of this number fails.
fn output(alloc: Global, put: u64) -> Result<MemSink, AllocError> {
    let mut fails = Seq::new(alloc);
    fails.push(put)?;
    MemSink::new(alloc, 100, fails)
}

// Runs the image twice, and appends the answers and the output.
fn add_answers(
    alloc: Global,
    image: &Image,
    argument: i64,
    steps: u64,
    put: u64,
    shown: &mut Vec<u8>,
) -> Result<(), AllocError>
    requires words { length image.now.words ≤ most_words }
    requires stack { image.now.stack ≡ 16 }
{
    let mut out = output(alloc, put)?;
    let mut machine = Machine::new(alloc, image, &[Value::Int(argument)], LIMITS)?;
    add_answer(alloc, &mut machine, steps, &mut out, shown)?;
    add_answer(alloc, &mut machine, 1000, &mut out, shown)?;
    add_lines(alloc, "", out.bytes(), shown)
}

// Runs the machine, and appends its answer and how many words it executed in all.
fn add_answer(
    alloc: Global,
    machine: &mut Machine,
    steps: u64,
    out: &mut MemSink,
    shown: &mut Vec<u8>,
) -> Result<(), AllocError> {
    let answer = machine.run(steps, out);
    let done = machine.done();
    let line = format!(in alloc; "{answer:?} after {done}")?;
    add_line(line.as_str(), shown)
}
