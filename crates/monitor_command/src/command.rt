// `monitor`: an accepted program is made into machine words, and a script says where the machine that executes them stops and when the
// values of the program's variables are written.

ghost use Rattle.std.specs.Prelude.{length, ◌≡◌, ◌⊎◌, ◌≤◌, []};
ghost use Rattle.bril_commands.specs.Command.{ImageFor, Fits, RefusesEmission};
ghost use Rattle.bril_commands.specs.Driver.{IsSilent};
ghost use Rattle.bril_commands.specs.Outcome.{Works};
ghost use Rattle.bril_commands.specs.commands.Monitor.{DoesMonitored, monitored};
ghost use Rattle.bril_report.specs.StageFaults.{status_of};
ghost use Rattle.bril_tree.specs.Run.{FitMain};
ghost use Rattle.bril_words.specs.Seen.{text_seen};
ghost use Rattle.monitor_command.specs.Carried.{IsShown, scripted};
ghost use Rattle.rv64_words.specs.Region.{most_stack, most_words};

use crate::function_names::FunctionNames;
use crate::image::image_of;
use crate::orders::carry_out;
use crate::progress::Progress;
use crate::target::Target;
use bril_checker::Checked;
use bril_commands::arguments::values_of;
use bril_commands::output::{answer, hand_on};
use bril_commands::script::script_at;
use bril_outside::files::Files;
use bril_outside::sink::Sink;
use bril_report::Status;
use bril_tree::value::Value;
use bril_words::{MachineSettings, Request};
use monitor_script::Order;
use std::alloc::Global;
use step_monitor::monitor::Monitor;

/// Carries out the script that the request names on the machine that runs the program's image under the limits, for so many words of it
/// in all, with the values that the request's words spell as the arguments of its `main`. What the program prints goes to the output,
/// and so do the stops of the machine, the items that have no point, the values that the script asks for, and `end` where the program
/// ends. Where the request names no script there is nothing to carry out.
///
/// `ArgumentCount`, `BadArgument`: the words spell no such values. `CannotRead`, `ScriptTooLarge`, `MisreadScript`: the file of the
/// script was not read, has too many bytes, or breaks the form. `CodeTooBig`, `StackTooBig`: the program may have more than 250,000
/// words, or needs more than 8,388,608 words of stack. With these, and out of memory, nothing is put. `Faulted`, `Spent`: the program
/// stopped with a fault, or the machine goes on after so many words. `CannotWrite`: a write failed.
pub fn monitor<F: Files, O: Sink>(
    alloc: Global,
    checked: &Checked,
    request: Request,
    settings: MachineSettings,
    files: &mut F,
    out: &mut O,
) -> Result<(), Status>
    ensures holds { (F.seen files.new).holds ≡ (F.seen files.old).holds }
    ensures faults { (F.seen files.old).faults ≤ (F.seen files.new).faults }
    ensures does { DoesMonitored settings.limits.frames settings.limits.cells settings.steps (status_of result) (F.seen files.old) (F.seen files.new) checked.now.prog (text_seen request.entry.second) request.entry.args.now (O.seen out.old) (O.seen out.new) }
{
    let values = values_of(alloc, checked.prog(), request.args)?;
    let orders = script_at(alloc, request.second, files)?;
    run_script(
        alloc,
        checked,
        values.as_slice(),
        orders.as_slice(),
        settings,
        out,
    )
}

// Makes the program's image, and carries out the orders on it with these values.
fn run_script<O: Sink>(
    alloc: Global,
    checked: &Checked,
    values: &[Value],
    orders: &[Order],
    settings: MachineSettings,
    out: &mut O,
) -> Result<(), Status>
    requires { FitMain checked.now.prog values.now }
    ensures { (RefusesEmission (ImageFor settings.limits.frames settings.limits.cells) (status_of result) checked.now.prog × IsSilent [] (O.seen out.old) (O.seen out.new))
        ⊎ (Fits (ImageFor settings.limits.frames settings.limits.cells) checked.now.prog × Works (monitored checked.now.prog values.now (λ script. script ≡ orders.now) settings.limits.frames settings.limits.cells settings.steps) (status_of result) [] (O.seen out.old) (O.seen out.new)) }
{
    let (image, points) = image_of(alloc, checked, settings.limits)?;
    let on = Target {
        image: &image,
        points: &points,
        program: checked.prog(),
        values,
        settings,
    };
    run_orders(alloc, on, orders, out)
}

// Carries out the orders.
fn run_orders<O: Sink>(
    alloc: Global,
    on: Target<'_>,
    orders: &[Order],
    out: &mut O,
) -> Result<(), Status>
    requires shown { IsShown on }
    requires words { length on.image.now.words ≤ most_words }
    requires stack { on.image.now.stack ≤ most_stack }
    ensures { (is : IsShown on.entry) → Works (scripted on.entry is orders.now) (status_of result) [] (O.seen out.old) (O.seen out.new) }
{
    let names = FunctionNames::of(alloc, on.program)?;
    let monitor = Monitor::new(alloc, on.image, on.points, on.values, on.settings.limits)?;
    let mut progress = Progress {
        monitor,
        func: None,
    };
    let ended = carry_out(on, &names, orders, &mut progress, out)?;
    hand_on(out)?;
    answer(ended, on.settings.steps)
}
