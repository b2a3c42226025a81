//! The program `roolvist-explain`.
//!
//! 1. `main`; `answered`, which calls the command line, and `collected`, which takes the system's words (`src/main.rt`).
#![tactic(auto)]

ghost use Rattle.std.specs.Prelude.{IfOk};
ghost use Rattle.roolvist_explain.specs.Words.{AreAllOf};

use bril_explain::{ROWS, answer};
use bril_outside::os_files::OsFiles;
use bril_outside::os_sink::OsSink;
use bril_report::{ErrorOutput, exit_number};
use bril_tree::sequence::Seq;
use bril_tree::text::Text;
use std::alloc::{AllocError, Global};
use std::env::{self, Args};
use std::io::{Stderr, Stdout};
use std::process::ExitCode;

fn main(rt: HostRuntime) -> ExitCode {
    ExitCode::from(exit_number(answered(&rt)))
}

// How many bytes of standard output are held back at most.
const HELD_BYTES: u32 = 8192;

// Does what the words of the command line ask for. A word that is no text is a faulty command line.
fn answered(rt: &HostRuntime) -> Result<u8, AllocError> {
    let alloc = rt.alloc();
    let Ok(args) = env::args(rt) else {
        return Ok(64);
    };
    let words = collected(alloc, args)?;
    let mut files = OsFiles::new(rt);
    let mut out = OsSink::buffered(alloc, HELD_BYTES, rt.stdout())?;
    let mut err = OsSink::new(alloc, rt.stderr());
    let mut told = ErrorOutput::new(&mut err);
    Ok(answer::<OsFiles<HostRuntime>, OsSink<Stdout>, OsSink<Stderr>>(
        alloc,
        words.as_slice(),
        &ROWS,
        &mut files,
        &mut out,
        &mut told,
    ))
}

// All words as text.
fn collected(alloc: Global, args: Args) -> Result<Seq<Text>, AllocError>
    ensures { IfOk result (AreAllOf args) }
{
    let mut words = Seq::new(alloc);
    for word in args {
        words.push(Text::of(alloc, word.as_str())?)?;
    }
    Ok(words)
}
