//! A proved program that runs command lines through `bril_top`, over files and outputs in memory. `stdin` has its cases,
//! `stdout` what must come, written by hand.
//!
//! 1. A case: the files and outputs that its lines set up, and its command lines (`src/case.rt`).
//! 2. Machine words that a command wrote, executed (`src/listing.rt`), and how often the guards of a program failed
//!    (`src/guards.rt`).

// Runs the command lines of standard input, each over files and outputs in memory, and shows what they leave.
//
// Standard input is lines of text; `stdin` beside src/ has all cases, and `stdout` what they must come to, by hand.
//
//     # a comment
//     == what the case shows     a new case, without files
//     reads 1 3                  the reads of the case, from 1, that fail; before its files
//     file one.bril              a file, of what the next lines write
//     |@main { }                 a line, verbatim, and LF
//     + caf\xc3\xa9              bytes with escapes, and no LF
//     chain 3                    files c0.bril, c1.bril and c2.bril, of which each imports `main` of the next, and calls it
//     fill 3 x\#;                so many times the bytes, `\#` being 0, 1 and so on
//     puts 2                     the puts of the next command, from 1, that fail
//     errs 1                     the puts of the next command to the error output that fail
//     room 8                     how many bytes the output of the next command takes
//     $ bril run one.bril        a command line: all its words, a blank between two; `\e` is an empty word
//     keeps one.elf bril elf one.bril    a command line whose output becomes the file at the path before it
//     executes bril emit one.bril -- 7   a command line that writes machine words, which a machine of its own executes with these ints
//     counts bril run one.bril --stats   a command line, shown with `#` as the number of words that it tells
//     fails one.bril -- 7        a file and arguments: how often each guard failed when its program is interpreted
//     cuts bril run one.bril     a command line for each length of the file before it but its own, with so many of its bytes
//
// Escapes are `\n`, `\r`, `\t`, `\\` and `\xHH`. Shown are the lines `==`, `$`, `keeps`, `executes`, `counts`, `fails` and `cuts`.
// After each `$` and `counts` comes the line `status N`, what went to the output as lines `|` and `+`, and what went to the
// error output as such lines after `err `. After `keeps` comes the same without the output. After `cuts` this is shown once for
// lengths in a row that leave the same, each time after a line `bytes FIRST to LAST`; a length at the end of the last line is
// shown as `#`.
#![tactic(auto)]

mod case;
mod guards;
mod listing;

use anyhow::Context;
use case::Case;
use std::io::{self, Write};

fn main(rt: HostRuntime) -> anyhow::Result<()> {
    let alloc = rt.alloc();
    let text = io::read_to_string(alloc, rt.reader())?;
    let mut shown = Vec::new(alloc);
    let mut case = Case::new(alloc);
    let mut number = 0u64;
    for line in text.as_str().lines() {
        number = number.saturating_add(1);
        case.take(line, &mut shown)
            .context(format_args!("line {number}"))?;
    }
    io::writer(&rt).write_all(shown.as_slice())?;
    Ok(())
}
