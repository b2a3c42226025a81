// The top call: a command line from its words to its status.

ghost use Rattle.std.specs.Prelude.{◌≡◌, ◌≤◌, false};
ghost use Rattle.std.specs.List.{All};
ghost use Rattle.shipped_passes.specs.Shipped.{AreShipped, MakesAsShipped, shipped_rows};
ghost use Rattle.bril_cli.specs.Completeness.{IsComplete};
ghost use Rattle.bril_commands.specs.Answers.{Promises};
ghost use Rattle.bril_commands.specs.Budgets.{IsPastBudget};
ghost use Rattle.bril_commands.specs.Call.{call_of};
ghost use Rattle.bril_commands.specs.RunIsCorrect.{RunIsCorrect};
ghost use Rattle.bril_words.specs.Answers.{PlainAsk, RefusedAlone};
ghost use Rattle.pass_law.specs.Chains.{AllSame};

use bril_driver::driver::drive;
use bril_outside::files::Files;
use bril_outside::sink::Sink;
use bril_report::{ErrorOutput, Outputs, Status, say, status_number};
use bril_tree::text::Text;
use bril_words::read_words;
use pass_law::Pass;
use std::alloc::Global;

/// Does what the words of a command line ask for, and answers its exit status. docs/COMMANDS.md has the commands with their options and
/// limits, and the statuses with the lines on `err` and which of several causes is answered.
///
/// It takes the words, the program's name first, as `bril_words::read_words` reads them; the files, of which it reads the one that the words
/// name, those that this imports, and that of the profile; the output, the error output, and the passes. It gives each name of a list to
/// the first pass that answers to it, and each pass gets what the one before it made. One that answers to the name of a shipped pass is to
/// make only what that one makes (`shipped`, by `shipped_passes/specs/Shipped.antt`): so these names mean the same in every list.
///
/// What the files hold stays as it was (`holds`), and their count of faults never falls (`faults`). No pass changes what it means (`same`), so
/// that all can be lent again; `run`, `emit`, `passes` and `demo` have the tallies of those that they use grow, and no other command
/// changes a pass. At 64 to 70 `out` gets nothing. A put on `err` that fails changes nothing else.
///
/// - `run` is the main theorem (`bril_commands/specs/RunIsCorrect.antt`): with the command `run`, an accepted program and arguments that it
///   takes, the status, `out` and `err` are those of the program by its semantics.
/// - `promises` says the same of every command, what each status says, and when it comes (`bril_commands/specs/Answers.antt`).
/// - `complete`: nothing is refused without a cause (`specs/Completeness.antt`). Where the words are taken, what is read is good and
///   nothing fails outside, each command ends as one that did its work: with 0 or, where it runs a program, 2, 3 or 4.
/// - `budget`: with the shipped passes `run` answers 3 only where the program has not ended after any number of steps for which `--steps`
///   is at least the budget of the list.
/// - `plain`: words of the plain form ask for what stands in them, each option for its own value.
/// - `refused`: words of which no value is wrong ask for nothing only where `clap` refuses them.
pub fn bril_top<F: Files, O: Sink, E: Sink>(
    alloc: Global,
    words: &[Text],
    files: &mut F,
    out: &mut O,
    err: &mut E,
    passes: &mut [Box<dyn Pass>],
) -> u8
    requires shipped { All (λ p. MakesAsShipped (meaning p)) passes.old }
    ensures holds { (F.seen files.new).holds ≡ (F.seen files.old).holds }
    ensures faults { (F.seen files.old).faults ≤ (F.seen files.new).faults }
    ensures same { AllSame (λ p. meaning p) passes.old passes.new }
    ensures promises { Promises result (call_of words.now (F.seen files.old) (F.seen files.new) (O.seen out.old) (O.seen out.new) (E.seen err.old) (E.seen err.new) (λ p. meaning p) (λ p. counts p) passes.old passes.new) }
    ensures run { RunIsCorrect result (call_of words.now (F.seen files.old) (F.seen files.new) (O.seen out.old) (O.seen out.new) (E.seen err.old) (E.seen err.new) (λ p. meaning p) (λ p. counts p) passes.old passes.new) }
    ensures complete { IsComplete result (call_of words.now (F.seen files.old) (F.seen files.new) (O.seen out.old) (O.seen out.new) (E.seen err.old) (E.seen err.new) (λ p. meaning p) (λ p. counts p) passes.old passes.new) }
    ensures budget { AreShipped (λ p. meaning p) passes.old → result ≡ 3 → IsPastBudget shipped_rows (call_of words.now (F.seen files.old) (F.seen files.new) (O.seen out.old) (O.seen out.new) (E.seen err.old) (E.seen err.new) (λ p. meaning p) (λ p. counts p) passes.old passes.new) }
    ensures plain { PlainAsk words.now }
    ensures refused { RefusedAlone words.now }
{
    let mut outputs = Outputs {
        out,
        err: ErrorOutput::new(err),
    };
    answer(alloc, words, files, passes, &mut outputs)
}

// The same, by two outputs.
fn answer<F: Files, O: Sink, E: Sink>(
    alloc: Global,
    words: &[Text],
    files: &mut F,
    passes: &mut [Box<dyn Pass>],
    outputs: &mut Outputs<'_, '_, O, E>,
) -> u8
    requires sound { outputs.old.err.has_failed ≡ false }
    ensures same_output { outputs.new.out.ghost_name ≡ outputs.old.out.ghost_name }
    ensures same_error_output { outputs.new.err.sink.ghost_name ≡ outputs.old.err.sink.ghost_name }
    ensures holds { (F.seen files.new).holds ≡ (F.seen files.old).holds }
    ensures faults { (F.seen files.old).faults ≤ (F.seen files.new).faults }
    ensures same { AllSame (λ p. meaning p) passes.old passes.new }
    ensures promises { Promises result (call_of words.now (F.seen files.old) (F.seen files.new) (O.seen outputs.old.out.now) (O.seen outputs.new.out.now) (E.seen outputs.old.err.sink.now) (E.seen outputs.new.err.sink.now) (λ p. meaning p) (λ p. counts p) passes.old passes.new) }
    ensures plain { PlainAsk words.now }
    ensures refused { RefusedAlone words.now }
{
    let request = match read_words(alloc, words) {
        Ok(request) => request,
        Err(misuse) => {
            let status = Status::from(misuse);
            say(&mut outputs.err, &status);
            return status_number(&status);
        }
    };
    let status = Status::from(drive(alloc, request, files, passes, outputs));
    say(&mut outputs.err, &status);
    status_number(&status)
}
