// How a command line ends, also where the system gives no words.

ghost use Rattle.std.specs.Prelude.{◌≡◌, IfOk, IfErr};
ghost use Rattle.bril_cli.specs.Completeness.{IsComplete};
ghost use Rattle.bril_cli.specs.End.{IsUntouched};
ghost use Rattle.shipped_passes.specs.Shipped.{AreShipped, shipped_rows};
ghost use Rattle.bril_commands.specs.Answers.{Promises};
ghost use Rattle.bril_commands.specs.Budgets.{IsPastBudget};
ghost use Rattle.bril_commands.specs.Call.{call_of};
ghost use Rattle.bril_commands.specs.RunIsCorrect.{RunIsCorrect};
ghost use Rattle.bril_report.specs.Report.{status_number};

use crate::top::bril_top;
use bril_outside::files::Files;
use bril_outside::sink::Sink;
use bril_report::{Status, status_number};
use bril_tree::sequence::Seq;
use bril_tree::text::Text;
use pass_law::Pass;
use std::alloc::Global;

/// Does what the words ask for by `bril_top`, with the shipped passes, and answers its exit status. Where there are no words it
/// answers the status that says why; then no file is read, nothing is written, and the passes stay as they are.
pub fn end<F: Files, O: Sink, E: Sink>(
    alloc: Global,
    words: Result<Seq<Text>, Status>,
    files: &mut F,
    out: &mut O,
    err: &mut E,
    passes: &mut [Box<dyn Pass>],
) -> u8
    requires shipped { AreShipped (λ p. meaning p) passes.old }
    ensures words { IfOk words (λ words. Promises result (call_of words (F.seen files.old) (F.seen files.new) (O.seen out.old) (O.seen out.new) (E.seen err.old) (E.seen err.new) (λ p. meaning p) (λ p. counts p) passes.old passes.new)) }
    ensures run { IfOk words (λ words. RunIsCorrect result (call_of words (F.seen files.old) (F.seen files.new) (O.seen out.old) (O.seen out.new) (E.seen err.old) (E.seen err.new) (λ p. meaning p) (λ p. counts p) passes.old passes.new)) }
    ensures complete { IfOk words (λ words. IsComplete result (call_of words (F.seen files.old) (F.seen files.new) (O.seen out.old) (O.seen out.new) (E.seen err.old) (E.seen err.new) (λ p. meaning p) (λ p. counts p) passes.old passes.new)) }
    ensures budget { IfOk words (λ words. result ≡ 3 → IsPastBudget shipped_rows (call_of words (F.seen files.old) (F.seen files.new) (O.seen out.old) (O.seen out.new) (E.seen err.old) (E.seen err.new) (λ p. meaning p) (λ p. counts p) passes.old passes.new)) }
    ensures none { IfErr words (λ status. result ≡ status_number status) }
    ensures kept { IfErr words (λ _. passes.new ≡ passes.old) }
    ensures silent { IfErr words (λ _. IsUntouched (F.seen files.old) (F.seen files.new) (O.seen out.old) (O.seen out.new) (E.seen err.old) (E.seen err.new)) }
{
    match words {
        Ok(words) => bril_top(alloc, words.as_slice(), files, out, err, passes),
        Err(status) => status_number(&status),
    }
}
