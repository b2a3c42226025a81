// `interp`: an accepted program is interpreted with the arguments that the words spell.

ghost use Rattle.std.specs.Prelude.{[], IfOk, IfErr};
ghost use Rattle.bril_commands.specs.Driver.{DoesSource};
ghost use Rattle.bril_commands.specs.Outcome.{ShowsPut, Works};
ghost use Rattle.bril_commands.specs.commands.Interp.{IsFresh, interpreted, interprets};
ghost use Rattle.bril_report.specs.StageFaults.{status_of};
ghost use Rattle.bril_tree.specs.Run.{FitMain};

use crate::arguments::values_of;
use crate::output::{answer, hand_on};
use bril_checker::Checked;
use bril_interpreter::{Interp, StepAnswer};
use bril_outside::sink::{Failed, Sink};
use bril_report::Status;
use bril_tree::limits::End;
use bril_tree::program::Prog;
use bril_tree::text::Text;
use bril_tree::value::Value;
use bril_words::InterpretSettings;
use std::alloc::Global;

/// Interprets the program under the limits and for the steps of these settings, with the values that the words spell as the arguments of
/// its `main`: what it prints goes to `out`.
///
/// `ArgumentCount`, `BadArgument`: the words spell no such values, and nothing is put. `Faulted`, `Spent`: the program stopped
/// with a fault, or goes on after the steps. `CannotWrite`: a write failed. Out of memory, nothing is put, or what the
/// program prints up to an item that takes memory. What was put is handed on by the output before this is answered.
pub fn interpret<O: Sink>(
    alloc: Global,
    checked: &Checked,
    words: &[Text],
    settings: InterpretSettings,
    out: &mut O,
) -> Result<(), Status>
    ensures { DoesSource (interprets settings.limits.frames settings.limits.cells settings.steps) (status_of result) checked.now.prog words.now (O.seen out.old) (O.seen out.new) }
{
    let values = values_of(alloc, checked.prog(), words)?;
    run_with(alloc, checked, values.as_slice(), settings, out)
}

// Interprets the program with these values.
fn run_with<O: Sink>(
    alloc: Global,
    checked: &Checked,
    values: &[Value],
    settings: InterpretSettings,
    out: &mut O,
) -> Result<(), Status>
    requires { FitMain checked.now.prog values.now }
    ensures { Works (interpreted checked.now.prog values.now settings.limits.frames settings.limits.cells settings.steps) (status_of result) [] (O.seen out.old) (O.seen out.new) }
{
    let Ok(mut interp) = Interp::new(alloc, checked, settings.limits, values) else {
        return Err(Status::OutOfMemory);
    };
    let ended = make_steps(&mut interp, checked.prog(), values, settings, out)?;
    hand_on(out)?;
    answer(ended, settings.steps)
}

// Makes so many steps. `Ok`: how the program ended, or that it goes on, for `None`. Where memory ran out, the output has handed on
// what it held back.
fn make_steps<O: Sink>(
    interp: &mut Interp<'_>,
    program: &Prog,
    values: &[Value],
    settings: InterpretSettings,
    out: &mut O,
) -> Result<Option<End>, Status>
    requires { IsFresh interp.old program.now settings.limits values.now }
    ensures ok { IfOk result (λ ended. ShowsPut (interpreted program.now values.now settings.limits.frames settings.limits.cells settings.steps) ended [] (O.seen out.old) (O.seen out.new)) }
    ensures err { IfErr result (λ status. Works (interpreted program.now values.now settings.limits.frames settings.limits.cells settings.steps) status [] (O.seen out.old) (O.seen out.new)) }
{
    match interp.run(settings.steps, out) {
        StepAnswer::Go => Ok(None),
        StepAnswer::End(end) => Ok(Some(end)),
        StepAnswer::WriteFault => Err(Status::CannotWrite),
        StepAnswer::Memory => match hand_on(out) {
            Ok(()) => Err(Status::OutOfMemory),
            Err(Failed) => Err(Status::OutOfMemory),
        },
    }
}
