// The run of any image on the machine.

ghost use Rattle.std.specs.Prelude.{◌≡◌, ◌⊎◌, ◌+◌, ◌≤◌, [], length, IfOk, OnErr};
ghost use Rattle.bril_commands.specs.Outcome.{ShowsPartly, TrapsPartly, Works};
ghost use Rattle.bril_commands.specs.commands.Execute.{execution};
ghost use Rattle.bril_report.specs.StageFaults.{status_of};
ghost use Rattle.bytes_commands.specs.Stopping.{PutsRun, stop_seen, stop_status};
ghost use Rattle.image_runs.specs.Machines.{IsFresh};
ghost use Rattle.rv64_words.specs.Region.{most_stack, most_words};

use bril_commands::output::{answer, hand_on};
use bril_outside::sink::{Failed, Sink};
use bril_report::Status;
use bril_tree::limits::End;
use bril_tree::value::Value;
use bril_words::MachineSettings;
use rv64_machine::answer::RunAnswer;
use rv64_machine::machine::Machine;
use rv64_words::image::Image;
use rv64_words::trap::Trap;
use std::alloc::Global;

// How the machine stopped.
#[derive(Clone, Copy, Drop)]
enum Halt {
    Finished(End),
    Trapped(Trap),
}

/// Runs the image with these values on its stack. Once the machine has stopped or gone on to the end of the steps, the output hands on what
/// it holds back.
///
/// Out of memory for the machine nothing is put. `Faulted`, `Trapped`, `Spent`: the machine stopped with a fault or by a trap, or goes on
/// after so many words. `CannotWrite`: a write failed.
pub fn run_with<O: Sink>(
    alloc: Global,
    image: &Image,
    values: &[Value],
    settings: MachineSettings,
    out: &mut O,
) -> Result<(), Status>
    requires words { length image.now.words ≤ most_words }
    requires stack { image.now.stack ≤ most_stack }
    requires room { length values.now + 2 ≤ image.now.stack }
    ensures { Works (execution image.now values.now settings.limits.cells settings.steps) (status_of result) [] (O.seen out.old) (O.seen out.new) }
{
    let Ok(mut machine) = Machine::new(alloc, image, values, settings.limits) else {
        return Err(Status::OutOfMemory);
    };
    run_image(image, values, settings, &mut machine, out)
}

// Runs a machine that was made for the image and the values. Takes no memory.
fn run_image<O: Sink>(
    image: &Image,
    values: &[Value],
    settings: MachineSettings,
    machine: &mut Machine,
    out: &mut O,
) -> Result<(), Status>
    requires { IsFresh machine.old image.now settings.limits values.now }
    ensures { Works (execution image.now values.now settings.limits.cells settings.steps) (status_of result) [] (O.seen out.old) (O.seen out.new) }
{
    let stopped = execute(image, values, settings, machine, out)?;
    hand_on(out)?;
    answer_of(stopped, settings.steps)
}

// Executes so many words of the image. `Ok`: how the machine stopped, or that it goes on, for `None`. `Failed`: a write failed.
fn execute<O: Sink>(
    image: &Image,
    values: &[Value],
    settings: MachineSettings,
    machine: &mut Machine,
    out: &mut O,
) -> Result<Option<Halt>, Failed>
    requires { IsFresh machine.old image.now settings.limits values.now }
    ensures ok { IfOk result (λ stopped. PutsRun (execution image.now values.now settings.limits.cells settings.steps) (stop_seen stopped) (O.seen out.old) (O.seen out.new)) }
    ensures err { let o = execution image.now values.now settings.limits.cells settings.steps in
        OnErr result (ShowsPartly o (O.seen out.old) (O.seen out.new) ⊎ TrapsPartly o (O.seen out.old) (O.seen out.new)) }
{
    match machine.run(settings.steps, out) {
        RunAnswer::End(end) => Ok(Some(Halt::Finished(end))),
        RunAnswer::Spent => Ok(None),
        RunAnswer::WriteFault => Err(Failed),
        RunAnswer::Trap(trap) => Ok(Some(Halt::Trapped(trap))),
    }
}

// What is answered of a run of so many words that stopped so, or goes on, for `None`.
fn answer_of(stopped: Option<Halt>, steps: u64) -> Result<(), Status>
    ensures { status_of result ≡ stop_status (stop_seen stopped) steps }
{
    match stopped {
        Some(Halt::Finished(end)) => answer(Some(end), steps),
        Some(Halt::Trapped(trap)) => Err(Status::Trapped { trap }),
        None => answer(None, steps),
    }
}
