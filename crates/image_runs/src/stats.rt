// `run --stats`: what is told of a run of the machine on the error output, before the line of the status.

ghost use Rattle.std.specs.Prelude.{◌≡◌, ◌^◌, ◌<◌, length};
ghost use Rattle.bril_commands.specs.Stats.{stats_told};
ghost use Rattle.bril_report.specs.Told.{Tells};
ghost use Rattle.rv64_machine.specs.MachineView.{state_of, image_in};

use bril_outside::sink::Sink;
use bril_report::{ErrorOutput, put_guard, put_words};
use bril_tree::program::Prog;
use rv64_machine::machine::Machine;
use rv64_words::image::GuardAt;

/// Tells how many words the machine executed, and how often the word of each guard, where that is asked for: the lines, each piece of
/// them by one put.
pub fn tell_stats<E: Sink>(
    stats: bool,
    program: &Prog,
    guards: &[GuardAt],
    machine: &Machine,
    err: &mut ErrorOutput<'_, E>,
)
    requires guards { guards.now ≡ (image_in machine.now).guards }
    requires few { length guards.now < 2 ^ 32 }
    ensures { Tells E.seen err.old (stats_told stats program.now guards.now (state_of machine.now)) err.new }
{
    if !stats {
        return;
    }
    put_words(err, machine.done());
    for (number, guard) in guards.iter().enumerate() {
        let fails = machine.fails(number as u32);
        put_guard(err, program, guard.func, guard.item, fails);
    }
}
