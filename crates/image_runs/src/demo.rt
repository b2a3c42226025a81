// The run of a demo's image on the machine, and what is shown of it.

ghost use Rattle.std.specs.Fmt.{decimal};
ghost use Rattle.std.specs.Prelude.{◌≡◌, [], ◌++◌, IfOk, OnOk, Some};
ghost use Rattle.bril_commands.specs.Outcome.{Works};
ghost use Rattle.bril_commands.specs.commands.Demo.{line_of, shown_status, size_of};
ghost use Rattle.image_runs.specs.Demo.{CountsPrinted, shows_line, size_seen};
ghost use Rattle.image_runs.specs.Machines.{IsFresh};
ghost use Rattle.bril_report.specs.StageFaults.{status_of};
ghost use Rattle.bril_report.specs.Telling.{Telling};
ghost use Rattle.bril_tree.specs.Run.{FitMain};
ghost use Rattle.bril_tree.specs.Size.{IsCounted};
ghost use Rattle.rv64_image_laws.specs.Implements.{Implements};
ghost use Rattle.rv64_machine.specs.MachineView.{state_of};

use bril_commands::output::hand_on;
use bril_outside::count_sink::CountSink;
use bril_outside::sink::Sink;
use bril_report::{Outputs, Status, put_words};
use bril_tree::bytes::Bytes;
use bril_tree::limits::{End, Limits};
use bril_tree::program::Prog;
use itoa::Buffer;
use rv64_machine::answer::RunAnswer;
use rv64_machine::machine::Machine;
use rv64_words::image::Image;
use std::alloc::{AllocError, Global};

/// The most words that are executed, and the most steps that are recorded.
pub const WORDS: u64 = 1_000_000_000_000;

/// Of a demo of so many functions, how many functions and items its program has.
#[derive(Clone, Copy, Drop)]
pub struct DemoCounts {
    pub functions: u32,
    pub all: u64,
    pub items: u64,
}

/// The counts of the program of a demo.
pub fn counts_of(functions: u32, program: &Prog) -> DemoCounts
    requires { IsCounted program.now }
    ensures { size_seen result ≡ size_of functions program.now }
{
    DemoCounts {
        functions,
        all: program.funcs.as_slice().len() as u64,
        items: program.size(),
    }
}

/// Executes the image for so many words, and counts what it prints. How the machine ended, or that it goes on, for `None`.
pub fn count_printed(
    image: &Image,
    program: &Prog,
    limits: Limits,
    machine: &mut Machine,
    printed: &mut CountSink,
) -> Option<End>
    requires implements { Implements image.now program.now limits }
    requires fits { FitMain program.now [] }
    requires fresh { IsFresh machine.old image.now limits [] }
    requires none { printed.old ≡ record { amount = Some 0; puts = Some 0 } }
    ensures { CountsPrinted program.now limits result (state_of machine.new).done printed.new }
{
    match machine.run(WORDS, printed) {
        RunAnswer::End(end) => Some(end),
        RunAnswer::Spent => None,
        RunAnswer::WriteFault => unreachable!(),
        RunAnswer::Trap(_) => unreachable!(),
    }
}

/// Puts the line of a demo that printed so many bytes and ended so, and tells how many words were executed.
pub fn show<O: Sink, E: Sink>(
    alloc: Global,
    counts: DemoCounts,
    bytes: u64,
    end: End,
    words: u64,
    outputs: &mut Outputs<'_, '_, O, E>,
) -> Result<(), Status>
    ensures { Telling O.seen E.seen (λ told s t. Works (shows_line (size_seen counts) bytes end words) (status_of result) told s t) outputs.old outputs.new }
{
    let line = demo_line(alloc, counts, bytes, end)?;
    outputs.out.put(line.as_slice())?;
    hand_on(outputs.out)?;
    put_words(&mut outputs.err, words);
    Ok(())
}

// The line of a demo that printed so many bytes and ended so.
fn demo_line(alloc: Global, counts: DemoCounts, bytes: u64, end: End) -> Result<Bytes, AllocError>
    ensures { IfOk result (λ line. line ≡ line_of (size_seen counts) bytes end) }
{
    let mut line = Bytes::new(alloc);
    line.add(b"demo ")?;
    add_count(&mut line, counts.functions as u64, b": ")?;
    add_count(&mut line, counts.all, b" functions, ")?;
    add_count(&mut line, counts.items, b" items, ")?;
    add_count(&mut line, bytes, b" bytes, status ")?;
    line.add(shown_status(end))?;
    line.add(b"\n")?;
    Ok(line)
}

// Adds a number, and a text after it.
fn add_count(line: &mut Bytes, number: u64, text: &[u8]) -> Result<(), AllocError>
    ensures { OnOk result (line.new ≡ line.old ++ decimal number ++ text.now) }
{
    let mut buffer = Buffer::new();
    line.add(buffer.format(number).as_bytes())?;
    line.add(text)?;
    Ok(())
}

// How the demo's program ended, by a number.
fn shown_status(end: End) -> &'static [u8]
    ensures { result.now ≡ shown_status end }
{
    match end {
        End::Ended => b"0",
        End::Faulted(_) => b"2",
    }
}
