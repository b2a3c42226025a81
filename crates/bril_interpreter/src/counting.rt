// Steps before which arrivals at labels are counted.

ghost use Rattle.std.specs.Prelude.{◌≤◌, map};

use crate::interp::Interp;

impl<'a> Interp<'a> {
    ghost use Rattle.bril_interpreter.specs.Arrivals.{Counts};
    ghost use Rattle.bril_interpreter.specs.Interpreter.{state_of};
    ghost use Rattle.bril_interpreter.specs.StepAnswers.{stepped};
    ghost use Rattle.bril_interpreter.specs.Steps.{RanOn};

    /// Makes at most so many steps and gives how many. None of them prints, ends the run or takes memory, and none is made where
    /// the run ended, or a write failed.
    ///
    /// `counts` has how often the run arrived at each label, by function and label; the arrivals before these steps are
    /// counted there, and a count stays at `u32::MAX`. It stops before an arrival that would be the `hot`-th at its label, or
    /// has no count, and at each item that isn't among the simple ones. Takes no memory.
    pub fn run_counting(&mut self, most: u64, hot: u32, counts: &mut Vec<Vec<u32>>) -> u64
        ensures most { result ≤ most }
        ensures ran { RanOn result self.old self.new }
        ensures counted { Counts self.old.checked.prog (stepped self.old) hot result (state_of self.old) (map (λ row. row.items) counts.old.items) (map (λ row. row.items) counts.new.items) }
    {
        if self.ended.is_some() || self.failed {
            return 0;
        }
        let function = self.newest.function() as usize;
        if function >= counts.len() {
            return 0;
        }
        self.run_frames(most, true, hot, counts[function].as_mut_slice())
    }
}
