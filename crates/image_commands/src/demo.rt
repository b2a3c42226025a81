// `demo`: the demo program is recorded, and made into machine words, which the machine executes.

ghost use Rattle.std.specs.Prelude.{◌≤◌, ◌⊎◌, [], length, IfOk};
ghost use Rattle.image_commands.specs.Demo.{DoesRecorded};
ghost use Rattle.bril_commands.specs.Command.{AreLimitsOf, ImageFor, RefusesEmission};
ghost use Rattle.bril_commands.specs.Driver.{IsSilent};
ghost use Rattle.bril_commands.specs.Outcome.{Works};
ghost use Rattle.bril_commands.specs.PassList.{pass_list};
ghost use Rattle.bril_commands.specs.Recording.{AreRecorded};
ghost use Rattle.bril_commands.specs.commands.Demo.{MadeRuns, demo_cells, demo_frames, demo_hot, demo_most, demo_words, demonstrated};
ghost use Rattle.bril_demo.specs.Demo.{demo_tree};
ghost use Rattle.image_runs.specs.Demo.{size_seen};
ghost use Rattle.bril_report.specs.StageFaults.{status_of};
ghost use Rattle.bril_report.specs.Telling.{Telling};
ghost use Rattle.bril_tree.specs.Numbered.{Numbered};
ghost use Rattle.bril_tree.specs.Run.{FitMain};
ghost use Rattle.bril_tree.specs.declared.limits.Limits.{Limits};
ghost use Rattle.pass_law.specs.Chains.{AllSame};
ghost use Rattle.rv64_image_laws.specs.Implements.{Implements};
ghost use Rattle.rv64_image_laws.specs.WordBounds.{IsWithin};
ghost use Rattle.rv64_words.specs.Region.{most_words, most_stack};

use crate::image::image_of;
use bril_checker::Checked;
use bril_commands::commands::recording::recorded_run;
use bril_commands::list::transformed;
use bril_commands::output::hand_on;
use bril_outside::count_sink::CountSink;
use bril_outside::sink::Sink;
use bril_profile::Profile;
use bril_report::{Outputs, Status};
use bril_tree::limits::Limits;
use bril_tree::program::Prog;
use bril_tree::sequence::Seq;
use bril_tree::text::Text;
use bril_words::RecordSettings;
use image_runs::demo::{DemoCounts, WORDS, count_printed, counts_of, show};
use pass_law::Pass;
use rv64_machine::machine::Machine;
use rv64_words::image::Image;
use std::alloc::{AllocError, Global};

/// The list of passes to which the demo gives its program.
pub const PASSES: &str = "trace,const,dead,tidy";

// The limits of the run.
const FRAMES: u32 = 8_192;

const CELLS: u32 = 1_048_576;

// So many arrivals make a label hot.
const HOT: u32 = 16;

// The most entries of the profile.
const MOST: u32 = 64;

/// Records the run of the demo program of so many functions, for 10^12 steps with 8,192 frames and 1,048,576 cells, where 16 arrivals make
/// a label hot and the profile has 64 entries at most. Gives the program to the list of passes with this profile, and runs what this makes
/// on the machine, for 10^12 words and with as many frames and cells. What it prints is counted alone. Its line goes to the output by one put: how many functions and
/// items the program has, how many bytes it printed, and 0, or 2 where it stopped with a fault. The number of words that were executed is
/// told on the error output.
///
/// `UnknownPass`, `PassTooLarge`: the list makes no program. `CodeTooBig`, `StackTooBig`: what it makes may have more than 250,000
/// words, or needs more than 8,388,608 words of stack. `Spent`: the machine goes on after so many words. With these, and out of memory,
/// nothing is put. `CannotWrite`: the write failed, and nothing is told.
pub fn demo<O: Sink, E: Sink>(
    alloc: Global,
    functions: u32,
    checked: Checked,
    passes: &mut [Box<dyn Pass>],
    names: &Seq<Text>,
    outputs: &mut Outputs<'_, '_, O, E>,
) -> Result<(), Status>
    requires own { Numbered (demo_tree functions) checked.prog }
    requires few { length names.now ≤ 64 }
    ensures does { Telling O.seen E.seen (λ told s t. DoesRecorded functions (status_of result) (pass_list (λ p. meaning p) (λ p. counts p) passes.old passes.new names.now) checked.prog told s t) outputs.old outputs.new }
    ensures same { AllSame (λ p. meaning p) passes.old passes.new }
{
    let counts = counts_of(functions, checked.prog());
    let profile = own_profile(alloc, &checked)?;
    let made = transformed(alloc, passes, names, checked, &profile)?;
    run_made(alloc, counts, &made, outputs)
}

// The profile of the run of a demo's program.
fn own_profile(alloc: Global, checked: &Checked) -> Result<Profile, AllocError>
    requires { FitMain checked.now.prog [] }
    ensures { IfOk result (λ profile. AreRecorded checked.now.prog [] demo_frames demo_cells demo_words demo_hot demo_most profile.entries) }
{
    let limits = demo_limits();
    let settings = RecordSettings {
        limits,
        steps: WORDS,
        hot: HOT,
        most: MOST,
    };
    let run = recorded_run(alloc, checked, &[], settings)?;
    Ok(run.profile)
}

// Makes the image of what the passes made, and runs it.
fn run_made<O: Sink, E: Sink>(
    alloc: Global,
    counts: DemoCounts,
    made: &Checked,
    outputs: &mut Outputs<'_, '_, O, E>,
) -> Result<(), Status>
    requires { FitMain made.now.prog [] }
    ensures { Telling O.seen E.seen (λ told s t. (RefusesEmission (ImageFor demo_frames demo_cells) (status_of result) made.now.prog × IsSilent told s t) ⊎ ((limits : Limits) × AreLimitsOf (ImageFor demo_frames demo_cells) limits × IsWithin made.now.prog limits × Works (demonstrated (size_seen counts) (MadeRuns made.now.prog limits)) (status_of result) told s t)) outputs.old outputs.new }
{
    let limits = demo_limits();
    let image = image_of(alloc, made, limits)?;
    run_image(alloc, &image, made.prog(), counts, limits, outputs)
}

// The limits of a demo.
fn demo_limits() -> Limits
    ensures { AreLimitsOf (ImageFor demo_frames demo_cells) result }
{
    Limits {
        frames: FRAMES,
        cells: CELLS,
    }
}

// Runs an image that implements the program. Once it has ended, or stopped, its line is put, and the number of words is told.
fn run_image<O: Sink, E: Sink>(
    alloc: Global,
    image: &Image,
    program: &Prog,
    counts: DemoCounts,
    limits: Limits,
    outputs: &mut Outputs<'_, '_, O, E>,
) -> Result<(), Status>
    requires implements { Implements image.now program.now limits }
    requires fits { FitMain program.now [] }
    requires words { length image.now.words ≤ most_words }
    requires guards { length image.now.guards ≤ length image.now.words }
    requires stack { image.now.stack ≤ most_stack }
    ensures { Telling O.seen E.seen (λ told s t. Works (demonstrated (size_seen counts) (MadeRuns program.now limits)) (status_of result) told s t) outputs.old outputs.new }
{
    let Ok(mut machine) = Machine::new(alloc, image, &[], limits) else {
        return Err(Status::OutOfMemory);
    };
    let mut printed = CountSink::new();
    match count_printed(image, program, limits, &mut machine, &mut printed) {
        Some(end) => show(alloc, counts, printed.bytes(), end, machine.done(), outputs),
        None => {
            hand_on(outputs.out)?;
            Err(Status::Spent { steps: WORDS })
        }
    }
}
