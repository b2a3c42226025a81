// `record`: an accepted program is interpreted with the arguments that the words spell, and the profile of the run is written.

ghost use Rattle.std.specs.Prelude.{◌≡◌, ◌≤◌, [], IfOk};
ghost use Rattle.bril_commands.specs.Arguments.{AreOnlyValues, RefusesArgs};
ghost use Rattle.bril_commands.specs.Driver.{IsSilent, Stage};
ghost use Rattle.bril_commands.specs.Outcome.{Works};
ghost use Rattle.bril_commands.specs.Recording.{Records, states_within};
ghost use Rattle.bril_commands.specs.commands.Interp.{IsFresh};
ghost use Rattle.bril_commands.specs.commands.Record.{recorded_run};
ghost use Rattle.bril_report.specs.StageFaults.{status_of};
ghost use Rattle.bril_tree.specs.Run.{FitMain, state_after};
ghost use Rattle.profile_text.specs.Form.{profile_text};
ghost use Rattle.profile_text.specs.declared.version.Version.TheVariants.{Second};
ghost use Rattle.trace_recorder.specs.Recorded.{recorded};
ghost use Rattle.trace_recorder.specs.Standing.{StandsFor};

use crate::arguments::values_of;
use crate::output::{answer, hand_on};
use bril_checker::Checked;
use bril_interpreter::{Interp, StepAnswer};
use bril_outside::count_sink::CountSink;
use bril_outside::sink::Sink;
use bril_profile::Profile;
use bril_report::Status;
use bril_tree::bytes::Bytes;
use bril_tree::limits::End;
use bril_tree::program::Prog;
use bril_tree::text::Text;
use bril_tree::value::Value;
use bril_words::RecordSettings;
use profile_text::write_profile;
use std::alloc::{AllocError, Global};
use trace_recorder::Recorder;

/// A run that was recorded: its profile, and how it ended, or that it goes on, for `None`.
#[derive(Drop)]
pub struct RecordedRun {
    pub profile: Profile,
    pub ended: Option<End>,
}

/// Interprets the program under the limits for so many steps, with the values that the words spell as the arguments of its `main`, drops
/// what it prints, and puts the text of the profile of the run on `out` by one put.
///
/// `ArgumentCount`, `BadArgument`: the words spell no such values. With these, and out of memory, nothing is put. `Faulted`, `Spent`: the
/// program stopped with a fault, or goes on after the steps, and the profile was put. `CannotWrite`: the write failed.
pub fn put_recorded<O: Sink>(
    alloc: Global,
    checked: &Checked,
    words: &[Text],
    settings: RecordSettings,
    out: &mut O,
) -> Result<(), Status>
    requires { settings.most ≤ 64 }
    ensures { Stage (RefusesArgs (status_of result) checked.now.prog words.now) (IsSilent [] (O.seen out.old) (O.seen out.new)) (λ values. AreOnlyValues checked.now.prog words.now values) (λ values are. Works (recorded_run checked.now.prog values settings.limits.frames settings.limits.cells settings.steps settings.hot settings.most) (status_of result) [] (O.seen out.old) (O.seen out.new)) }
{
    let values = values_of(alloc, checked.prog(), words)?;
    put_run(alloc, checked, values.as_slice(), settings, out)
}

// Records the run with these values, and puts the text of its profile.
fn put_run<O: Sink>(
    alloc: Global,
    checked: &Checked,
    values: &[Value],
    settings: RecordSettings,
    out: &mut O,
) -> Result<(), Status>
    requires fits { FitMain checked.now.prog values.now }
    requires few { settings.most ≤ 64 }
    ensures { Works (recorded_run checked.now.prog values.now settings.limits.frames settings.limits.cells settings.steps settings.hot settings.most) (status_of result) [] (O.seen out.old) (O.seen out.new) }
{
    let run = recorded_run(alloc, checked, values, settings)?;
    let text = text_of(alloc, &run.profile)?;
    out.put(text.as_slice())?;
    hand_on(out)?;
    answer(run.ended, settings.steps)
}

// The text of a profile.
fn text_of(alloc: Global, profile: &Profile) -> Result<Bytes, AllocError>
    ensures { IfOk result (λ text. text ≡ profile_text Second profile.now.entries) }
{
    let mut text = Bytes::new(alloc);
    write_profile(profile, &mut text)?;
    Ok(text)
}

/// The run of so many steps with these values, recorded. What it prints is dropped.
pub fn recorded_run(
    alloc: Global,
    checked: &Checked,
    values: &[Value],
    settings: RecordSettings,
) -> Result<RecordedRun, AllocError>
    requires fits { FitMain checked.now.prog values.now }
    requires few { settings.most ≤ 64 }
    ensures ended { IfOk result (λ run. (state_after checked.now.prog settings.limits values.now settings.steps).ended ≡ run.ended) }
    ensures profile { IfOk result (λ run. run.profile.entries ≡ recorded checked.now.prog settings.hot settings.most (states_within checked.now.prog settings.limits values.now settings.steps)) }
{
    let mut interp = Interp::new(alloc, checked, settings.limits, values)?;
    let mut recorder = Recorder::new(alloc, settings.hot, settings.most);
    let ended = make_steps(&mut interp, &mut recorder, checked.prog(), values, settings)?;
    let profile = recorder.into_profile()?;
    Ok(RecordedRun { profile, ended })
}

// Makes so many steps, each of which the recorder sees before it. `Ok`: how the program ended, or that it goes on, for `None`.
fn make_steps(
    interp: &mut Interp<'_>,
    recorder: &mut Recorder,
    program: &Prog,
    values: &[Value],
    settings: RecordSettings,
) -> Result<Option<End>, AllocError>
    requires fresh { IsFresh interp.old program.now settings.limits values.now }
    requires new { StandsFor recorder.old program.now settings.hot settings.most [] }
    ensures { IfOk result (λ ended. Records program.now settings.limits values.now settings.hot settings.most settings.steps recorder.new ended) }
{
    let mut printed = CountSink::new();
    let mut made = 0;
    while made < settings.steps {
        made += recorder.run_counting(interp, settings.steps - made);
        if made < settings.steps {
            recorder.see(interp)?;
            match interp.step(&mut printed) {
                StepAnswer::Go => made += 1,
                StepAnswer::End(end) => return Ok(Some(end)),
                StepAnswer::WriteFault => unreachable!(),
                StepAnswer::Memory => return Err(AllocError),
            }
        }
    }
    Ok(None)
}
