//! A program that lists machine words as text, or runs them. `bench/words` and `bench/machine` use it.
//!
//! It reads words in hexadecimal, one a line, from standard input. With the word `list` it prints their listing, with
//! `run` and ints it runs the words as an image with these arguments of `main`, and tells on standard error how many words
//! were executed and how the run ended.
//!
//! 1. The program (`src/main.rt`).
#![tactic(auto)]

use bril_outside::os_sink::OsSink;
use bril_tree::bytes::Bytes;
use bril_tree::limits::{End, Limits};
use bril_tree::sequence::Seq;
use bril_tree::value::Value;
use rv64_listing::write_listing;
use rv64_machine::answer::RunAnswer;
use rv64_machine::machine::Machine;
use rv64_words::image::Image;
use rv64_words::region::MOST_WORDS;
use std::alloc::{AllocError, Global};
use std::env;
use std::io::{self, Write};

const LIMITS: Limits = Limits {
    frames: 1,
    cells: 65536,
};

// The words of the stack, and the most words that are executed.
const STACK: u32 = 65536;

const STEPS: u64 = 1_000_000_000_000;

fn main(rt: HostRuntime) -> anyhow::Result<()> {
    let alloc = rt.alloc();
    let source = io::read_to_string(alloc, rt.reader())?;
    let words = words_of(alloc, &source)?;
    let mut args = env::args(&rt)?;
    let _program = args.next();
    match args.next() {
        Some(command) if command.as_str() == "list" => {
            let mut text = Bytes::new(alloc);
            write_listing(words.as_slice(), &mut text)?;
            io::writer(&rt).write_all(text.as_slice())?;
            Ok(())
        }
        Some(command) if command.as_str() == "run" => {
            let mut values = Vec::new(alloc);
            for arg in args {
                values.push(Value::Int(arg.as_str().parse::<i64>().unwrap_or(0)))?;
            }
            run(&rt, words, values.as_slice())
        }
        _ => {
            eprintln!(rt; "usage: rv64_run list, or rv64_run run and ints")?;
            Ok(())
        }
    }
}

// The words of the lines; a line that is no word is left out.
fn words_of(alloc: Global, source: &str) -> Result<Seq<u32>, AllocError> {
    let mut words = Seq::new(alloc);
    for line in source.lines() {
        if let Ok(bits) = u32::from_str_radix(line, 16) {
            words.push(bits)?;
        }
    }
    Ok(words)
}

// Runs the words, with the program's output on standard output.
fn run(rt: &HostRuntime, words: Seq<u32>, args: &[Value]) -> anyhow::Result<()> {
    let alloc = rt.alloc();
    if words.as_slice().len() > MOST_WORDS || args.len() > 1000 {
        eprintln!(rt; "too large")?;
        return Ok(());
    }
    let image = Image {
        words,
        guards: Seq::new(alloc),
        stack: STACK,
    };
    let mut machine = Machine::new(alloc, &image, args, LIMITS)?;
    let mut out = OsSink::new(alloc, rt.stdout());
    let answer = machine.run(STEPS, &mut out);
    let done = machine.done();
    eprintln!(rt; "words {done}")?;
    match answer {
        RunAnswer::End(End::Ended) => eprintln!(rt; "ended")?,
        RunAnswer::End(End::Faulted(fault)) => eprintln!(rt; "fault {fault:?}")?,
        RunAnswer::Spent => eprintln!(rt; "spent")?,
        RunAnswer::WriteFault => eprintln!(rt; "cannot write")?,
        RunAnswer::Trap(trap) => eprintln!(rt; "trap {trap:?}")?,
    }
    Ok(())
}
