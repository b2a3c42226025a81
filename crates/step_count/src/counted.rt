// Steps that are made and counted.

ghost use Rattle.std.specs.Prelude.{◌≡◌, ◌≤◌, false, None};
ghost use Rattle.bril_interpreter.specs.Interpreter.{state_of};
ghost use Rattle.bril_interpreter.specs.StepAnswers.{Ran};
ghost use Rattle.step_count.specs.Executed.{IsCounted, counts_at};

use bril_interpreter::{Interp, StepAnswer};
use bril_outside::sink::Sink;
use bril_tree::numbered::Instr;

/// What the steps of a run were answered, and how many of them carried out an instruction.
#[derive(Clone, Copy, PartialEq, Eq, Debug, Drop)]
pub struct CountedRun {
    pub answer: StepAnswer,
    pub executed: u64,
}

/// Makes so many steps of a run that goes on, as `Interp::run` does, and counts those that carry out an instruction: an item that is no
/// label. Where a write fails or memory is wanting, the steps before it are counted.
pub fn run_counted<O: Sink>(interp: &mut Interp<'_>, steps: u64, out: &mut O) -> CountedRun
    requires sound { interp.old.has_failed ≡ false }
    requires runs { interp.old.ended ≡ None }
    ensures ran { Ran result.answer steps interp.old interp.new (O.seen out.old) (O.seen out.new) }
    ensures counted { IsCounted interp.old steps result }
{
    let mut executed = 0;
    let mut made = 0;
    while made < steps {
        let more = executed + next_count(interp);
        match interp.step(out) {
            StepAnswer::Go => {
                executed = more;
                made += 1;
            }
            StepAnswer::End(end) => {
                return CountedRun {
                    answer: StepAnswer::End(end),
                    executed: more,
                };
            }
            StepAnswer::WriteFault => {
                return CountedRun {
                    answer: StepAnswer::WriteFault,
                    executed,
                };
            }
            StepAnswer::Memory => {
                return CountedRun {
                    answer: StepAnswer::Memory,
                    executed,
                };
            }
        }
    }
    CountedRun {
        answer: StepAnswer::Go,
        executed,
    }
}

// How many instructions the next step carries out: one, or none at a label, at the end of a function and where the run ended.
fn next_count(interp: &Interp<'_>) -> u64
    ensures is { result ≡ counts_at interp.now.checked.prog (state_of interp.now) }
    ensures few { result ≤ 1 }
{
    let Some(here) = interp.here() else {
        return 0;
    };
    let Some(function) = interp
        .prog()
        .prog()
        .funcs
        .as_slice()
        .get(here.func as usize)
    else {
        return 0;
    };
    match function.code.as_slice().get(here.item as usize) {
        None | Some(Instr::Label(_)) => 0,
        Some(Instr::Const { .. } | Instr::Act { .. }) => 1,
    }
}
