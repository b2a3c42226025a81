// The run of an image on the machine, for `run`.

ghost use Rattle.std.specs.Prelude.{◌≡◌, ◌≢◌, ◌^◌, ◌<◌, length, IfOk, OnErr};
ghost use Rattle.bril_commands.specs.Outcome.{ShowsPartly, ShowsPut, Works};
ghost use Rattle.bril_commands.specs.Stats.{stats_told};
ghost use Rattle.bril_commands.specs.commands.Run.{executed};
ghost use Rattle.image_runs.specs.Machines.{IsFresh};
ghost use Rattle.bril_report.specs.StageFaults.{status_of};
ghost use Rattle.bril_report.specs.Telling.{Telling};
ghost use Rattle.bril_report.specs.declared.status.Status.TheVariants.{OutOfMemory};
ghost use Rattle.bril_tree.specs.Run.{FitMain};
ghost use Rattle.rv64_image_laws.specs.Implements.{Implements};
ghost use Rattle.rv64_machine.specs.MachineView.{image_in, state_of};

use crate::stats::tell_stats;
use bril_commands::output::{answer, hand_on};
use bril_outside::sink::{Failed, Sink};
use bril_report::{Outputs, Status};
use bril_tree::limits::End;
use bril_tree::program::Prog;
use bril_tree::value::Value;
use bril_words::RunSettings;
use rv64_machine::answer::RunAnswer;
use rv64_machine::machine::Machine;
use rv64_words::image::Image;

/// Runs a machine that was made for an image of the program and these values of its `main`'s arguments. Once it has stopped or gone on to
/// the end of the steps, the output hands on what it holds back, and the counts are told. Takes no memory.
///
/// `Faulted`, `Spent`: the program stopped with a fault, or the machine goes on after so many words. `CannotWrite`: a write failed, and
/// nothing is told.
pub fn run_image<O: Sink, E: Sink>(
    image: &Image,
    program: &Prog,
    values: &[Value],
    settings: RunSettings,
    machine: &mut Machine,
    outputs: &mut Outputs<'_, '_, O, E>,
) -> Result<(), Status>
    requires implements { Implements image.now program.now settings.limits }
    requires fits { FitMain program.now values.now }
    requires guards { length image.now.guards < 2 ^ 32 }
    requires fresh { IsFresh machine.old image.now settings.limits values.now }
    ensures does { Telling O.seen E.seen (λ told s t. Works (executed program.now settings.limits values.now settings.steps settings.stats) (status_of result) told s t) outputs.old outputs.new }
    ensures memory { status_of result ≢ OutOfMemory }
{
    let guards = image.guards.as_slice();
    let ended = execute(image, program, values, settings, machine, outputs.out)?;
    hand_on(outputs.out)?;
    tell_stats(settings.stats, program, guards, machine, &mut outputs.err);
    answer(ended, settings.steps)
}

// Executes so many words of the image. `Ok`: how the machine ended, or that it goes on, for `None`. `Failed`: a write failed.
fn execute<O: Sink>(
    image: &Image,
    program: &Prog,
    values: &[Value],
    settings: RunSettings,
    machine: &mut Machine,
    out: &mut O,
) -> Result<Option<End>, Failed>
    requires implements { Implements image.now program.now settings.limits }
    requires fits { FitMain program.now values.now }
    requires fresh { IsFresh machine.old image.now settings.limits values.now }
    ensures image { image_in machine.new ≡ image_in machine.old }
    ensures ok { IfOk result (λ ended. ShowsPut (executed program.now settings.limits values.now settings.steps settings.stats) ended (stats_told settings.stats program.now image.now.guards (state_of machine.new)) (O.seen out.old) (O.seen out.new)) }
    ensures err { OnErr result (ShowsPartly (executed program.now settings.limits values.now settings.steps settings.stats) (O.seen out.old) (O.seen out.new)) }
{
    match machine.run(settings.steps, out) {
        RunAnswer::End(end) => Ok(Some(end)),
        RunAnswer::Spent => Ok(None),
        RunAnswer::WriteFault => Err(Failed),
        RunAnswer::Trap(_) => unreachable!(),
    }
}
