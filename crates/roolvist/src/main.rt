//! The program: the command line of Roolvist over the system's words, files and outputs.
//!
//! 1. `main`; `with_passes`, which has the shipped passes lent to `carry_out`, which calls the command line (`src/main.rt`).
//! 2. `given_words`, which takes the system's words (`src/main.rt`, `specs/Words.antt`).
#![tactic(auto)]

ghost use Rattle.std.specs.Prelude.{◌≡◌, IfOk, IfErr, IsErrAnd};
ghost use Rattle.std.specs.IoError.{error_kind};
ghost use Rattle.shipped_passes.specs.Shipped.{AreShipped};
ghost use Rattle.bril_report.specs.declared.status.Status.TheVariants.{OutOfMemory};
ghost use Rattle.roolvist.specs.Words.{AreAllOf, IsForNoWords};

use bril_cli::end::end;
use bril_outside::os_files::OsFiles;
use bril_outside::os_sink::OsSink;
use bril_report::{Status, exit_number};
use bril_tree::sequence::Seq;
use bril_tree::text::Text;
use bril_words::Misuse;
use pass_law::Pass;
use shipped_passes::{Job, with_shipped_passes};
use std::alloc::{AllocError, Global};
use std::env::{self, Args};
use std::io::{self, ErrorKind, IsTerminal, Stderr, Stdout};
use std::process::ExitCode;

fn main(rt: HostRuntime) -> ExitCode {
    ExitCode::from(exit_number(with_passes(&rt)))
}

// The command line, as what is done with the shipped passes.
#[derive(Drop)]
struct CommandLine<'a> {
    rt: &'a HostRuntime,
}

impl<'a> Job for CommandLine<'a> {
    type Answer = Result<u8, AllocError>;

    fn work(self, passes: &mut [Box<dyn Pass>]) -> Result<u8, AllocError> {
        carry_out(self.rt, passes)
    }
}

// Does what the words of the command line ask for, with the shipped passes. Where there is no memory for these, or for the buffer of
// standard output, nothing is read or written.
fn with_passes(rt: &HostRuntime) -> Result<u8, AllocError> {
    with_shipped_passes(rt.alloc(), CommandLine { rt })?
}

// Does what the words of the command line ask for, with these passes. Where there is no memory for the buffer of standard output, nothing
// is read or written.
fn carry_out(rt: &HostRuntime, passes: &mut [Box<dyn Pass>]) -> Result<u8, AllocError>
    requires { AreShipped (λ p. meaning p) passes.old }
{
    let alloc = rt.alloc();
    let words = given_words(alloc, env::args(rt));
    let mut files = OsFiles::new(rt);
    let mut out = standard_output(rt)?;
    let mut err = OsSink::new(alloc, rt.stderr());
    Ok(end::<OsFiles<HostRuntime>, OsSink<Stdout>, OsSink<Stderr>>(
        alloc, words, &mut files, &mut out, &mut err, passes,
    ))
}

// How many bytes of standard output are held back at most.
const HELD_BYTES: u32 = 8192;

// Standard output behind a buffer, which is written when it is full, at the end of a command, and on a terminal at each LF.
fn standard_output(rt: &HostRuntime) -> Result<OsSink<Stdout>, AllocError> {
    let stdout = rt.stdout();
    if stdout.is_terminal() {
        OsSink::by_line(rt.alloc(), HELD_BYTES, stdout)
    } else {
        OsSink::buffered(rt.alloc(), HELD_BYTES, stdout)
    }
}

// All words that the system gives, as text. `Err`: it gives none, or they don't fit into memory.
fn given_words(alloc: Global, args: io::Result<Args>) -> Result<Seq<Text>, Status>
    ensures all { IfOk args (λ args. IfOk result (AreAllOf args)) }
    ensures memory { IfOk args (λ _. IfErr result (λ status. status ≡ OutOfMemory)) }
    ensures none { IfErr args (λ fault. IsErrAnd result (IsForNoWords (error_kind fault))) }
{
    match args {
        Ok(args) => Ok(collected(alloc, args)?),
        Err(fault) => Err(no_words(alloc, fault.kind())),
    }
}

// The status where the system gives no words: one that is no text is a faulty command line.
fn no_words(alloc: Global, kind: ErrorKind) -> Status
    ensures { IsForNoWords kind result }
{
    match kind {
        ErrorKind::OutOfMemory => Status::OutOfMemory,
        _ => Status::Misused {
            misuse: Misuse::Words {
                text: String::new(alloc),
            },
        },
    }
}

// All words as text, as they are.
fn collected(alloc: Global, args: Args) -> Result<Seq<Text>, AllocError>
    ensures { IfOk result (AreAllOf args) }
{
    let mut words = Seq::new(alloc);
    for word in args {
        words.push(Text::of(alloc, word.as_str())?)?;
    }
    Ok(words)
}
