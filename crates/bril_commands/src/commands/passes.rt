// `passes`: the program that a list of passes makes of an accepted program is written, in canonical text.

ghost use Rattle.std.specs.Prelude.{◌≡◌, ◌≤◌, [], length, IfOk};
ghost use Rattle.bril_commands.specs.Driver.{DoesProgram};
ghost use Rattle.bril_commands.specs.Outcome.{Works, writes};
ghost use Rattle.bril_commands.specs.PassList.{pass_list, pieces_from};
ghost use Rattle.bril_commands.specs.commands.Passes.{IsTextOf, PutsTextOf, transforms};
ghost use Rattle.bril_report.specs.StageFaults.{status_of};
ghost use Rattle.bril_report.specs.Telling.{Telling};
ghost use Rattle.bril_words.specs.Seen.{text_seen};
ghost use Rattle.pass_law.specs.Chains.{AllSame};

use crate::list::tell_tallies;
use crate::making::made_program;
use crate::output::put_text;
use bril_checker::Checked;
use bril_names::unnumber;
use bril_outside::files::Files;
use bril_outside::sink::Sink;
use bril_report::{Outputs, Status};
use bril_text::write_text;
use bril_tree::bytes::Bytes;
use bril_tree::program::Prog;
use bril_tree::sequence::Seq;
use bril_tree::text::Text;
use pass_law::Pass;
use std::alloc::{AllocError, Global};

/// Puts the canonical text of the program that a list of passes makes of an accepted program, with the profile of the file at the path, if
/// there is one, on the output, by one put. After that the tallies of the passes that the list used are told on the error output.
///
/// `CannotRead`, `ProfileTooLarge`, `MisreadProfile`: that file was not read, has too many bytes, or breaks the form. `UnknownPass`, `PassTooLarge`: the list makes no program. With these, and out of memory, nothing is put and nothing is told.
/// `CannotWrite`: the write failed, and the tallies are told.
pub fn put_transformed<F: Files, O: Sink, E: Sink>(
    alloc: Global,
    checked: Checked,
    profile: Option<&str>,
    files: &mut F,
    passes: &mut [Box<dyn Pass>],
    names: &Seq<Text>,
    outputs: &mut Outputs<'_, '_, O, E>,
) -> Result<(), Status>
    requires { length names.now ≤ 64 }
    ensures holds { (F.seen files.new).holds ≡ (F.seen files.old).holds }
    ensures faults { (F.seen files.old).faults ≤ (F.seen files.new).faults }
    ensures does { Telling O.seen E.seen (λ told s t. DoesProgram transforms (status_of result) (pass_list (λ p. meaning p) (λ p. counts p) passes.old passes.new names.now) (F.seen files.old) (F.seen files.new) checked.prog (text_seen profile.entry) [] told s t) outputs.old outputs.new }
    ensures same { AllSame (λ p. meaning p) passes.old passes.new }
{
    let made = made_program(alloc, checked, profile, files, passes, names)?;
    put_made(alloc, made.prog(), passes, names.as_slice(), outputs)
}

// Puts the text of the program that the passes made, and tells their tallies.
fn put_made<O: Sink, E: Sink>(
    alloc: Global,
    program: &Prog,
    passes: &[Box<dyn Pass>],
    names: &[Text],
    outputs: &mut Outputs<'_, '_, O, E>,
) -> Result<(), Status>
    ensures { Telling O.seen E.seen (λ told s t. Works (writes (pieces_from (λ p. meaning p) (λ p. counts p) names.now [] passes.now) (PutsTextOf program.now)) (status_of result) told s t) outputs.old outputs.new }
{
    let text = text_of(alloc, program)?;
    let put = put_text(text.as_slice(), outputs.out);
    tell_tallies(passes, names, &mut outputs.err);
    put
}

// The canonical text of a program.
fn text_of(alloc: Global, program: &Prog) -> Result<Bytes, AllocError>
    ensures { IfOk result (IsTextOf program.now) }
{
    let tree = unnumber(alloc, program)?;
    let mut text = Bytes::new(alloc);
    write_text(&tree, &mut text)?;
    Ok(text)
}
