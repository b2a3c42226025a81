// What a pass did so far.

ghost use Rattle.std.specs.Prelude.{◌≡◌};

/// How often a pass ran, and how many items it was given and made, over all its runs. A number that would pass 2^64 - 1
/// stays there.
#[derive(Clone, Copy, PartialEq, Eq, Debug, Drop)]
pub struct Tally {
    pub runs: u64,
    pub seen: u64,
    pub made: u64,
}

impl Tally {
    ghost use Rattle.pass_law.specs.Tallies.{grown, zero_tally};

    /// The tally of a pass that never ran. Takes no memory.
    pub fn zero() -> Tally
        ensures { result ≡ zero_tally }
    {
        Tally {
            runs: 0,
            seen: 0,
            made: 0,
        }
    }

    /// Counts one more run, on a program of `seen` items, that made one of `made` items. Takes no memory.
    pub fn grow(&mut self, seen: u64, made: u64)
        ensures { self.new ≡ grown self.old seen made }
    {
        self.runs = self.runs.saturating_add(1);
        self.seen = self.seen.saturating_add(seen);
        self.made = self.made.saturating_add(made);
    }
}
