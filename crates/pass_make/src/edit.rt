// What is a pass's own, and the pass that it makes.

ghost use Rattle.std.specs.Prelude.{◌≡◌, IfOk, IfErr};
ghost use Rattle.bril_tree.specs.Size.{item_count};
ghost use Rattle.pass_law.specs.Meaning.{Meaning, HasNumbers, Link, IsRefused};
ghost use Rattle.pass_law.specs.Tallies.{zero_tally};
ghost use Rattle.pass_make.specs.Edited.{TellsBound, HasRoom, IsLinkedTo};

use crate::from_tree::finish;
use crate::made::Made;
use bril_checker::Checked;
use bril_profile::Profile;
use pass_law::{Pass, PassFault, Tally, room};
use std::alloc::{AllocError, Global};
use std::marker::{Model, PhantomData};

/// What is a pass's own.
pub trait Edit {
    /// The names of the pass, its factor, its bound and the relation of what it makes.
    ghost meaning: { Meaning };

    /// Whether the pass answers to the name. Takes no memory.
    fn is_named(name: &[u8]) -> bool
        ensures { result ≡ meaning.answers name.now };

    /// The pass's bound on the items of the result, or 2^64 - 1 where it is greater. The only error is out of memory.
    fn bound(alloc: Global, prog: &Checked, profile: &Profile) -> Result<u64, AllocError>
        ensures numbers { HasNumbers meaning }
        ensures bound { IfOk result (TellsBound (meaning.IsBound prog.now.prog profile.now)) };

    /// What the pass makes of the program, whose bound isn't too large. The only error is out of memory.
    fn edit(alloc: Global, prog: &Checked, profile: &Profile) -> Result<Made, AllocError>
        requires { HasRoom (meaning.IsBound prog.now.prog profile.now) (item_count prog.now.prog) }
        ensures { IfOk result (IsLinkedTo meaning profile.now prog.now.prog) };
}

/// The pass that an edit makes, as clauses see it by its tally.
#[derive(Drop)]
pub struct Edited<E: Edit> {
    tally: Tally,
    edit: PhantomData<E>,
}

impl<E: Edit> Model for Edited<E> {
    ghost use Rattle.pass_law.specs.declared.tally.Tally.{Tally};

    ghost Value = { Tally };

    ghost view = { λ pass. pass.tally };
}

impl<E: Edit> Edited<E> {
    /// The pass, with a tally of zeros. Takes no memory.
    pub fn new() -> Edited<E>
        ensures { result ≡ zero_tally }
    {
        Edited {
            tally: Tally::zero(),
            edit: PhantomData,
        }
    }
}

impl<E: Edit> Pass for Edited<E> {
    ghost meaning = { λ _. E.meaning };

    ghost counts = { λ pass. pass };

    fn is_named(&self, name: &[u8]) -> bool {
        E::is_named(name)
    }

    fn tally(&self) -> Tally {
        self.tally
    }

    fn run(
        &mut self,
        alloc: Global,
        prog: &Checked,
        profile: &Profile,
    ) -> Result<Checked, PassFault> {
        let made = made_by::<E>(alloc, prog, profile)?;
        self.tally.grow(prog.prog().size(), made.prog().size());
        Ok(made)
    }
}

// What the edit makes of the program, or the refusal of its bound.
fn made_by<E: Edit>(alloc: Global, prog: &Checked, profile: &Profile) -> Result<Checked, PassFault>
    ensures numbers { HasNumbers E.meaning }
    ensures link { IfOk result (λ made. Link E.meaning profile.now prog.now.prog made.prog) }
    ensures refused { IfErr result (IsRefused (E.meaning.IsBound prog.now.prog profile.now) (item_count prog.now.prog)) }
{
    let old = prog.prog();
    room(old, E::bound(alloc, prog, profile)?)?;
    match E::edit(alloc, prog, profile)? {
        Made::Tree(tree) => Ok(finish(alloc, old, &tree)?),
        Made::Program(made) => Ok(made),
    }
}
