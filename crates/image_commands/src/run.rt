// `run`: an accepted program is made into machine words, which the machine executes.

ghost use Rattle.std.specs.Prelude.{length, ◌≡◌, ◌⊎◌, ◌≤◌};
ghost use Rattle.bril_commands.specs.Command.{ImageFor, Fits, RefusesEmission};
ghost use Rattle.bril_commands.specs.Driver.{DoesProgram, IsSilent};
ghost use Rattle.bril_commands.specs.Outcome.{Works};
ghost use Rattle.bril_commands.specs.PassList.{pass_list};
ghost use Rattle.bril_commands.specs.commands.Run.{executed, runs};
ghost use Rattle.bril_report.specs.StageFaults.{status_of};
ghost use Rattle.bril_report.specs.Telling.{Telling};
ghost use Rattle.bril_words.specs.Seen.{text_seen};
ghost use Rattle.pass_law.specs.Chains.{AllSame};
ghost use Rattle.bril_tree.specs.Run.{FitMain};

use crate::image::image_of;
use bril_checker::Checked;
use bril_commands::arguments::values_of;
use bril_commands::making::made_program;
use bril_outside::files::Files;
use bril_outside::sink::Sink;
use bril_report::{Outputs, Status};
use bril_tree::sequence::Seq;
use bril_tree::text::Text;
use bril_tree::value::Value;
use bril_words::{Request, RunSettings};
use image_runs::run::run_image;
use pass_law::Pass;
use rv64_machine::machine::Machine;
use std::alloc::Global;

/// Gives the program to a list of passes, with the profile that the request names, and runs what this makes on the machine under the
/// limits, for so many words of it, with the values that the request's words spell as the arguments of its `main`: what it prints goes to
/// the output. After the run its counts are told on the error output, where that is asked for.
///
/// `ArgumentCount`, `BadArgument`: the words spell no such values. `CannotRead`, `ProfileTooLarge`, `MisreadProfile`: the file of the
/// profile was not read, has too many bytes, or breaks the form. `UnknownPass`, `PassTooLarge`: the list makes no program. `CodeTooBig`, `StackTooBig`: what it makes may have more than 250,000 words, or needs more than 8,388,608 words of stack.
/// With these, and out of memory, nothing is put. `Faulted`, `Spent`: the program stopped with a fault, or the machine goes on after so
/// many words. `CannotWrite`: a write failed, and nothing is told.
pub fn run<F: Files, O: Sink, E: Sink>(
    alloc: Global,
    checked: Checked,
    request: Request,
    settings: RunSettings,
    files: &mut F,
    passes: &mut [Box<dyn Pass>],
    names: &Seq<Text>,
    outputs: &mut Outputs<'_, '_, O, E>,
) -> Result<(), Status>
    requires { length names.now ≤ 64 }
    ensures holds { (F.seen files.new).holds ≡ (F.seen files.old).holds }
    ensures faults { (F.seen files.old).faults ≤ (F.seen files.new).faults }
    ensures does { Telling O.seen E.seen (λ told s t. DoesProgram (runs settings.limits.frames settings.limits.cells settings.steps settings.stats) (status_of result) (pass_list (λ p. meaning p) (λ p. counts p) passes.old passes.new names.now) (F.seen files.old) (F.seen files.new) checked.prog (text_seen request.entry.second) request.entry.args.now told s t) outputs.old outputs.new }
    ensures same { AllSame (λ p. meaning p) passes.old passes.new }
{
    let values = values_of(alloc, checked.prog(), request.args)?;
    let made = made_program(alloc, checked, request.second, files, passes, names)?;
    run_with(alloc, &made, &values, settings, outputs)
}

// Makes the program's image and runs it with these values.
fn run_with<O: Sink, E: Sink>(
    alloc: Global,
    checked: &Checked,
    values: &Seq<Value>,
    settings: RunSettings,
    outputs: &mut Outputs<'_, '_, O, E>,
) -> Result<(), Status>
    requires { FitMain checked.now.prog values.now }
    ensures { Telling O.seen E.seen (λ told s t. (RefusesEmission (ImageFor settings.limits.frames settings.limits.cells) (status_of result) checked.now.prog × IsSilent told s t) ⊎ (Fits (ImageFor settings.limits.frames settings.limits.cells) checked.now.prog × Works (executed checked.now.prog settings.limits values.now settings.steps settings.stats) (status_of result) told s t)) outputs.old outputs.new }
{
    let image = image_of(alloc, checked, settings.limits)?;
    let values = values.as_slice();
    let Ok(mut machine) = Machine::new(alloc, &image, values, settings.limits) else {
        return Err(Status::OutOfMemory);
    };
    run_image(
        &image,
        checked.prog(),
        values,
        settings,
        &mut machine,
        outputs,
    )
}
