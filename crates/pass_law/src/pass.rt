// The law of a pass.

ghost use Rattle.std.specs.Prelude.{◌≡◌, IfOk, IfErr, OnErr};
ghost use Rattle.bril_tree.specs.Size.{item_count};
ghost use Rattle.pass_law.specs.Meaning.{Meaning, HasNumbers, Link, IsRefused, SameMeaning};
ghost use Rattle.pass_law.specs.Tallies.{grown};
ghost use Rattle.pass_law.specs.declared.tally.Tally.{Tally};

use crate::fault::PassFault;
use crate::tally::Tally;
use bril_checker::Checked;
use bril_profile::Profile;
use std::alloc::Global;

/// A pass over programs.
pub trait Pass: Drop {
    /// What the pass means: its names, its factor, its bound and the relation of what it makes.
    ghost meaning: { Self → Meaning };

    /// The pass's tally.
    ghost counts: { Self → Tally };

    /// Whether the pass answers to the name. Takes no memory.
    fn is_named(&self, name: &[u8]) -> bool
        ensures { result ≡ (meaning self.now).answers name.now };

    /// What the pass did so far. Takes no memory.
    fn tally(&self) -> Tally
        ensures { result ≡ counts self.now };

    /// Makes a program of the given one, by the profile. The result is accepted, refines the given program with the
    /// pass's factor, has at most its bound of items, and is what its relation says; the tally grows by one run with
    /// the sizes of both. An error is `TooLarge`, exactly where the bound passes 1,000,000 and the given size, or
    /// `Memory`, and leaves the tally as it was. There is one factor and one bound. What the pass means never changes.
    fn run(
        &mut self,
        alloc: Global,
        prog: &Checked,
        profile: &Profile,
    ) -> Result<Checked, PassFault>
        ensures numbers { HasNumbers (meaning self.old) }
        ensures link { IfOk result (λ made. Link (meaning self.old) profile.now prog.now.prog made.prog) }
        ensures counted { IfOk result (λ made. counts self.new ≡ grown (counts self.old) (item_count prog.now.prog) (item_count made.prog)) }
        ensures refused { IfErr result (λ fault. IsRefused ((meaning self.old).IsBound prog.now.prog profile.now) (item_count prog.now.prog) fault) }
        ensures uncounted { OnErr result (counts self.new ≡ counts self.old) }
        ensures same { SameMeaning (meaning self.old) (meaning self.new) };
}
