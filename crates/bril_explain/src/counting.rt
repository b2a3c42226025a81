// How many instructions a run carries out.

ghost use Rattle.std.specs.Prelude.{IfErr, IfOk};
ghost use Rattle.bril_report.specs.StageFaults.{status_of};
ghost use Rattle.bril_tree.specs.Run.{FitMain};
ghost use Rattle.bril_explain.specs.Executed.{CountsRun, IsCounted, IsCutShort, IsRunOf, RefusesRun, TellsCount, count_pieces};
ghost use Rattle.bril_report.specs.Told.{Tells};

use crate::first_fault::accepted;
use bril_checker::Checked;
use bril_commands::arguments::values_of;
use bril_commands::output::{answer, hand_on};
use bril_interpreter::{Interp, StepAnswer};
use bril_outside::files::Files;
use bril_outside::sink::Sink;
use bril_report::{ErrorOutput, Status, say, status_number};
use bril_tree::limits::{End, Limits};
use bril_tree::text::Text;
use bril_tree::value::Value;
use itoa::Buffer;
use std::alloc::Global;
use step_count::run_counted;

// The limits of a run that is counted, and its most steps.
const LIMITS: Limits = Limits {
    frames: 8192,
    cells: 1048576,
};

const STEPS: u64 = 1000000000000;

// A run that was counted: how many instructions were carried out, and how it ended, or that it goes on, for `None`.
#[derive(Clone, Copy, Drop)]
pub struct Run {
    pub executed: u64,
    pub ended: Option<End>,
}

/// Interprets the program whose first file is at the path `root`, with the values that the words spell as the arguments of its `main`, as the
/// command `interp` does, and then tells on the error output how many instructions were carried out, as `total_dyn_inst: N`: items that
/// are no labels. The answer is the exit status, and its line follows.
pub fn count<F: Files, O: Sink, E: Sink>(
    alloc: Global,
    root: &str,
    words: &[Text],
    files: &mut F,
    out: &mut O,
    err: &mut ErrorOutput<'_, E>,
) -> u8
    ensures { TellsCount E.seen result (F.seen files.old) (F.seen files.new) root.now words.now (O.seen out.old) (O.seen out.new) err.old err.new }
{
    let status = Status::from(counted(alloc, root, words, files, out, err));
    say(err, &status);
    status_number(&status)
}

// The same, up to the line of the status.
fn counted<F: Files, O: Sink, E: Sink>(
    alloc: Global,
    root: &str,
    words: &[Text],
    files: &mut F,
    out: &mut O,
    err: &mut ErrorOutput<'_, E>,
) -> Result<(), Status>
    ensures { IsCounted E.seen (status_of result) (F.seen files.old) (F.seen files.new) root.now words.now (O.seen out.old) (O.seen out.new) err.old err.new }
{
    let checked = accepted(alloc, root, files)?;
    let run = run_of(alloc, &checked, words, out)?;
    hand_on(out)?;
    put_count(err, run.executed);
    answer(run.ended, STEPS)
}

// The run with the values that the words spell, counted.
fn run_of<O: Sink>(
    alloc: Global,
    checked: &Checked,
    words: &[Text],
    out: &mut O,
) -> Result<Run, Status>
    ensures ok { IfOk result (IsRunOf checked.now.prog words.now (O.seen out.old) (O.seen out.new)) }
    ensures err { IfErr result (λ status. RefusesRun status checked.now.prog words.now) }
{
    let values = values_of(alloc, checked.prog(), words)?;
    let run = run_with(alloc, checked, values.as_slice(), out)?;
    Ok(run)
}

// The run with these values, counted.
fn run_with<O: Sink>(
    alloc: Global,
    checked: &Checked,
    values: &[Value],
    out: &mut O,
) -> Result<Run, Status>
    requires { FitMain checked.now.prog values.now }
    ensures ok { IfOk result (CountsRun checked.now.prog values.now (O.seen out.old) (O.seen out.new)) }
    ensures err { IfErr result IsCutShort }
{
    let mut interp = Interp::new(alloc, checked, LIMITS, values)?;
    let run = run_counted(&mut interp, STEPS, out);
    match run.answer {
        StepAnswer::Go => Ok(Run {
            executed: run.executed,
            ended: None,
        }),
        StepAnswer::End(end) => Ok(Run {
            executed: run.executed,
            ended: Some(end),
        }),
        StepAnswer::WriteFault => Err(Status::CannotWrite),
        StepAnswer::Memory => Err(Status::OutOfMemory),
    }
}

// Puts the line of a count.
fn put_count<E: Sink>(err: &mut ErrorOutput<'_, E>, executed: u64)
    ensures { Tells E.seen err.old (count_pieces executed) err.new }
{
    let mut number = Buffer::new();
    err.put_all(&[
        b"total_dyn_inst: ",
        number.format(executed).as_bytes(),
        b"\n",
    ]);
}
