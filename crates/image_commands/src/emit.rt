// `emit`: the machine words of an accepted program are written.

ghost use Rattle.std.specs.Prelude.{length, ◌≡◌, ◌≤◌, []};
ghost use Rattle.bril_commands.specs.Driver.{DoesProgram};
ghost use Rattle.bril_commands.specs.PassList.{pass_list};
ghost use Rattle.bril_commands.specs.commands.Emit.{emits_words};
ghost use Rattle.bril_report.specs.StageFaults.{status_of};
ghost use Rattle.bril_words.specs.Seen.{text_seen};
ghost use Rattle.pass_law.specs.Chains.{AllSame};

use crate::image::image_of;
use bril_checker::Checked;
use bril_commands::making::made_program;
use bril_outside::files::Files;
use bril_outside::sink::Sink;
use bril_report::Status;
use bril_tree::limits::Limits;
use bril_tree::sequence::Seq;
use bril_tree::text::Text;
use image_runs::listing::put_words;
use pass_law::Pass;
use std::alloc::Global;

/// Gives the program to a list of passes, with the profile of the file at the path, if there is one, and puts the words of the image of
/// what this makes, under the limits, on the output, each in eight hexadecimal digits and LF by one put.
///
/// `CannotRead`, `ProfileTooLarge`, `MisreadProfile`: that file was not read, has too many bytes, or breaks the form. `UnknownPass`, `PassTooLarge`: the list makes no program. `CodeTooBig`, `StackTooBig`: what it makes may have more than 250,000
/// words, or needs more than 8,388,608 words of stack. With these, and out of memory, nothing is put. `CannotWrite`: a write failed.
pub fn put_image<F: Files, O: Sink>(
    alloc: Global,
    checked: Checked,
    profile: Option<&str>,
    limits: Limits,
    files: &mut F,
    passes: &mut [Box<dyn Pass>],
    names: &Seq<Text>,
    out: &mut O,
) -> Result<(), Status>
    requires { length names.now ≤ 64 }
    ensures holds { (F.seen files.new).holds ≡ (F.seen files.old).holds }
    ensures faults { (F.seen files.old).faults ≤ (F.seen files.new).faults }
    ensures does { DoesProgram (emits_words limits.frames limits.cells) (status_of result) (pass_list (λ p. meaning p) (λ p. counts p) passes.old passes.new names.now) (F.seen files.old) (F.seen files.new) checked.prog (text_seen profile.entry) [] [] (O.seen out.old) (O.seen out.new) }
    ensures same { AllSame (λ p. meaning p) passes.old passes.new }
{
    let made = made_program(alloc, checked, profile, files, passes, names)?;
    let image = image_of(alloc, &made, limits)?;
    put_words(image.words.as_slice(), out)
}
