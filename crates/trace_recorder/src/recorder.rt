// The recorder.

ghost use Rattle.std.specs.Prelude.{◌≡◌, ◌≤◌, ◌++◌, ◌∷◌, [], ℕ, List, IfOk, OnOk, OnErr};
ghost use Rattle.bril_interpreter.specs.Interpreter.{state_of};
ghost use Rattle.bril_interpreter.specs.Steps.{RanOn};
ghost use Rattle.bril_tree.specs.State.{State};
ghost use Rattle.bril_tree.specs.declared.program.Prog.{Prog};
ghost use Rattle.trace_recorder.specs.Recorded.{recorded};
ghost use Rattle.trace_recorder.specs.Standing.{StandsFor, TakesMemory, states_before};

use crate::counts::Tables;
use crate::parts::Parts;
use crate::paths::Paths;
use bril_interpreter::Interp;
use bril_profile::Profile;
use bril_tree::sequence::Seq;
use std::alloc::{AllocError, Global};
use std::marker::Model;

/// A recorder of one run: the entries of its profile as far as the run went.
///
/// An entry belongs to a label that was arrived at `hot` times, in all frames together. It has the choices of each `br`
/// from there on, true where the first label was taken, until the path of the entry ends (see `trace_paths`) or the run
/// does. Its count tells how often the run arrived at the label, up to 2^32 - 1.
#[derive(Drop)]
pub struct Recorder {
    parts: Parts,
}

impl Model for Recorder {
    ghost use Rattle.trace_recorder.specs.Standing.{RecorderView};
    ghost use Rattle.trace_recorder.specs.Kept.{view_of, IsSound};

    ghost Value = { RecorderView };

    ghost view = { λ r. view_of r.parts };

    ghost invariant = { λ r. IsSound r.parts };
}

impl Recorder {
    /// A recorder of a run of any program, before its first state: `hot` arrivals make a label hot, and the profile has at
    /// most so many entries. Takes no memory.
    pub fn new(alloc: Global, hot: u32, most: u32) -> Recorder
        requires { most ≤ 64 }
        ensures { (P : Prog) → StandsFor result P hot most [] }
    {
        Recorder {
            parts: Parts {
                alloc,
                hot,
                most,
                tables: Tables {
                    counts: Vec::new(alloc),
                    numbers: Vec::new(alloc),
                },
                paths: Paths::new(alloc),
            },
        }
    }

    /// Sees the state of a run before a step: to be called before each step that is made, of one run, but for those that
    /// `run_counting` makes.
    ///
    /// An error means out of memory, or that an entry is to begin and 2^32 - 1 were begun before. It leaves the recorder as it
    /// was, and comes only at the first state, when the counts of arrivals are made, at one where an entry begins, and at a
    /// `br` that the path of some entry may lay: no other takes memory. Takes time for a look-up; while paths go on, in
    /// proportion to the entries whose paths end there.
    pub fn see(&mut self, now: &Interp<'_>) -> Result<(), AllocError>
        ensures ok { OnOk result ((hot most : ℕ) (run : List State) → StandsFor self.old now.now.checked.prog hot most run
            → StandsFor self.new now.now.checked.prog hot most (run ++ state_of now.now ∷ [])) }
        ensures err { OnErr result (self.new ≡ self.old) }
        ensures memory { OnErr result (TakesMemory self.old now.now.checked.prog (state_of now.now)) }
    {
        self.parts.see(now)
    }

    /// Makes at most so many steps of the run and gives how many, as if `see` saw the state before each of them. None of them
    /// prints, ends the run or takes memory.
    ///
    /// It makes none while a path may go on, before the first state, and where the run ended, or a write failed; and it stops
    /// before an arrival that begins an entry, and at an item that isn't among the simple ones. Takes no memory.
    pub fn run_counting(&mut self, now: &mut Interp<'_>, most: u64) -> u64
        ensures most { result ≤ most }
        ensures ran { RanOn result now.old now.new }
        ensures stands { (hot most : ℕ) (run : List State) → StandsFor self.old now.old.checked.prog hot most run
            → StandsFor self.new now.old.checked.prog hot most (run ++ states_before now.old result) }
    {
        self.parts.run_counting(now, most)
    }

    /// The profile of the run: the entries stand by falling count, equal counts in the order of the arrivals that made their
    /// labels hot, and only the first ones are kept, as many as the profile may have.
    ///
    /// An error means out of memory; the recorder is gone. Takes time in proportion to the entries times those that are kept.
    pub fn into_profile(self) -> Result<Profile, AllocError>
        ensures { (P : Prog) (hot most : ℕ) (run : List State) → StandsFor self P hot most run → IfOk result (λ profile. profile.entries ≡ recorded P hot most run) }
    {
        let Recorder { parts } = self;
        Ok(Profile {
            entries: Seq::of_items(parts.entries()?),
        })
    }
}
