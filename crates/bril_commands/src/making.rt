// The program that a command's list of passes makes of its accepted program, with the profile that its words name.

ghost use Rattle.std.specs.Prelude.{◌≡◌, ◌≤◌, length, IfOk, IfErr};
ghost use Rattle.bril_commands.specs.Making.{IsMadeWith, RefusesMadeWith};
ghost use Rattle.bril_commands.specs.PassList.{pass_list};
ghost use Rattle.bril_words.specs.Seen.{text_seen};
ghost use Rattle.pass_law.specs.Chains.{AllSame};

use crate::list::transformed;
use crate::profile::profile_at;
use bril_checker::Checked;
use bril_outside::files::Files;
use bril_report::Status;
use bril_tree::sequence::Seq;
use bril_tree::text::Text;
use pass_law::Pass;
use std::alloc::Global;

/// The program that a list of passes makes of an accepted program, with the profile of the file at the path, if there is one.
///
/// `CannotRead`, `ProfileTooLarge`, `MisreadProfile`: that file was not read, has too many bytes, or breaks the form, and no pass ran.
/// `UnknownPass`, `PassTooLarge`: the list makes no program.
pub fn made_program<F: Files>(
    alloc: Global,
    checked: Checked,
    path: Option<&str>,
    files: &mut F,
    passes: &mut [Box<dyn Pass>],
    names: &Seq<Text>,
) -> Result<Checked, Status>
    requires { length names.now ≤ 64 }
    ensures holds { (F.seen files.new).holds ≡ (F.seen files.old).holds }
    ensures faults { (F.seen files.old).faults ≤ (F.seen files.new).faults }
    ensures ok { IfOk result (λ made. IsMadeWith (pass_list (λ p. meaning p) (λ p. counts p) passes.old passes.new names.now) (text_seen path.entry) (F.seen files.old).holds checked.prog made.prog) }
    ensures err { IfErr result (λ status. RefusesMadeWith status (pass_list (λ p. meaning p) (λ p. counts p) passes.old passes.new names.now) (text_seen path.entry) (F.seen files.old) (F.seen files.new) checked.prog) }
    ensures same { AllSame (λ p. meaning p) passes.old passes.new }
{
    let profile = profile_at(alloc, path, files)?;
    transformed(alloc, passes, names, checked, &profile)
}
