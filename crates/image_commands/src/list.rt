// `list`: the machine words of an accepted program are written as a listing.

ghost use Rattle.std.specs.Prelude.{length, ◌≡◌, ◌≤◌, [], IfOk};
ghost use Rattle.bril_commands.specs.Driver.{DoesProgram};
ghost use Rattle.bril_commands.specs.Outcome.{Works, writes_text};
ghost use Rattle.bril_commands.specs.PassList.{pass_list};
ghost use Rattle.bril_commands.specs.commands.List.{emits_listing};
ghost use Rattle.bril_report.specs.StageFaults.{status_of};
ghost use Rattle.bril_words.specs.Seen.{text_seen};
ghost use Rattle.pass_law.specs.Chains.{AllSame};
ghost use Rattle.rv64_listing.specs.Line.{listing};

use crate::image::image_of;
use bril_checker::Checked;
use bril_commands::making::made_program;
use bril_commands::output::put_alone;
use bril_outside::files::Files;
use bril_outside::sink::Sink;
use bril_report::Status;
use bril_tree::bytes::Bytes;
use bril_tree::limits::Limits;
use bril_tree::sequence::Seq;
use bril_tree::text::Text;
use pass_law::Pass;
use rv64_listing::write_listing;
use std::alloc::{AllocError, Global};

/// Gives the program to a list of passes, with the profile of the file at the path, if there is one, and puts the listing of the words of
/// the image of what this makes, under the limits, on the output by one put: a line for each word.
///
/// `CannotRead`, `ProfileTooLarge`, `MisreadProfile`: that file was not read, has too many bytes, or breaks the form. `UnknownPass`,
/// `PassTooLarge`: the list makes no program. `CodeTooBig`, `StackTooBig`: what it makes may have more than 250,000 words, or needs more
/// than 8,388,608 words of stack. With these, and out of memory, nothing is put. `CannotWrite`: the write failed.
pub fn put_listing<F: Files, O: Sink>(
    alloc: Global,
    checked: Checked,
    profile: Option<&str>,
    limits: Limits,
    files: &mut F,
    passes: &mut [Box<dyn Pass>],
    names: &Seq<Text>,
    out: &mut O,
) -> Result<(), Status>
    requires { length names.now ≤ 64 }
    ensures holds { (F.seen files.new).holds ≡ (F.seen files.old).holds }
    ensures faults { (F.seen files.old).faults ≤ (F.seen files.new).faults }
    ensures does { DoesProgram (emits_listing limits.frames limits.cells) (status_of result) (pass_list (λ p. meaning p) (λ p. counts p) passes.old passes.new names.now) (F.seen files.old) (F.seen files.new) checked.prog (text_seen profile.entry) [] [] (O.seen out.old) (O.seen out.new) }
    ensures same { AllSame (λ p. meaning p) passes.old passes.new }
{
    let made = made_program(alloc, checked, profile, files, passes, names)?;
    let image = image_of(alloc, &made, limits)?;
    put_words(alloc, image.words.as_slice(), out)
}

// Puts the listing of the words.
fn put_words<O: Sink>(alloc: Global, words: &[u32], out: &mut O) -> Result<(), Status>
    ensures { Works (writes_text (listing words.now)) (status_of result) [] (O.seen out.old) (O.seen out.new) }
{
    let text = listing_of(alloc, words)?;
    put_alone(text.as_slice(), out)
}

// The listing of the words.
fn listing_of(alloc: Global, words: &[u32]) -> Result<Bytes, AllocError>
    ensures { IfOk result (λ text. text ≡ listing words.now) }
{
    let mut text = Bytes::new(alloc);
    write_listing(words, &mut text)?;
    Ok(text)
}
