// `elf`: the machine words of an accepted program are written as an ELF file.

ghost use Rattle.std.specs.Prelude.{length, ◌≡◌, ◌≤◌, [], IfOk};
ghost use Rattle.bril_commands.specs.Driver.{DoesProgram};
ghost use Rattle.bril_commands.specs.Outcome.{Works, writes_text};
ghost use Rattle.bril_commands.specs.PassList.{pass_list};
ghost use Rattle.bril_commands.specs.commands.Wrap.{emits_file};
ghost use Rattle.bril_report.specs.StageFaults.{status_of};
ghost use Rattle.bril_words.specs.Seen.{text_seen};
ghost use Rattle.elf_wrap.specs.Form.{wrapped};
ghost use Rattle.pass_law.specs.Chains.{AllSame};

use crate::image::image_of;
use bril_checker::Checked;
use bril_commands::making::made_program;
use bril_commands::output::put_alone;
use bril_outside::files::Files;
use bril_outside::sink::Sink;
use bril_report::Status;
use bril_tree::bytes::Bytes;
use bril_tree::limits::Limits;
use bril_tree::sequence::Seq;
use bril_tree::text::Text;
use elf_wrap::wrap;
use pass_law::Pass;
use rv64_words::image::Image;
use std::alloc::{AllocError, Global};

/// Gives the program to a list of passes, with the profile of the file at the path, if there is one, and puts the ELF file of the image of
/// what this makes, under the limits, on the output by one put.
///
/// `CannotRead`, `ProfileTooLarge`, `MisreadProfile`: that file was not read, has too many bytes, or breaks the form. `UnknownPass`,
/// `PassTooLarge`: the list makes no program. `CodeTooBig`, `StackTooBig`: what it makes may have more than 250,000 words, or needs more
/// than 8,388,608 words of stack. With these, and out of memory, nothing is put. `CannotWrite`: the write failed.
pub fn put_file<F: Files, O: Sink>(
    alloc: Global,
    checked: Checked,
    profile: Option<&str>,
    limits: Limits,
    files: &mut F,
    passes: &mut [Box<dyn Pass>],
    names: &Seq<Text>,
    out: &mut O,
) -> Result<(), Status>
    requires { length names.now ≤ 64 }
    ensures holds { (F.seen files.new).holds ≡ (F.seen files.old).holds }
    ensures faults { (F.seen files.old).faults ≤ (F.seen files.new).faults }
    ensures does { DoesProgram (emits_file limits.frames limits.cells) (status_of result) (pass_list (λ p. meaning p) (λ p. counts p) passes.old passes.new names.now) (F.seen files.old) (F.seen files.new) checked.prog (text_seen profile.entry) [] [] (O.seen out.old) (O.seen out.new) }
    ensures same { AllSame (λ p. meaning p) passes.old passes.new }
{
    let made = made_program(alloc, checked, profile, files, passes, names)?;
    let image = image_of(alloc, &made, limits)?;
    put_wrapped(alloc, &image, out)
}

// Puts the file of the image.
fn put_wrapped<O: Sink>(alloc: Global, image: &Image, out: &mut O) -> Result<(), Status>
    ensures { Works (writes_text (wrapped image.now.stack image.now.words)) (status_of result) [] (O.seen out.old) (O.seen out.new) }
{
    let file = file_of(alloc, image)?;
    put_alone(file.as_slice(), out)
}

// The file of the image.
fn file_of(alloc: Global, image: &Image) -> Result<Bytes, AllocError>
    ensures { IfOk result (λ file. file ≡ wrapped image.now.stack image.now.words) }
{
    let mut file = Bytes::new(alloc);
    wrap(image, &mut file)?;
    Ok(file)
}
