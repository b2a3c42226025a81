// The side exits of a function.

ghost use Rattle.std.specs.Prelude.{◌≡◌, ◌<◌, ◌++◌, IfOk, IsTrue, Some, length, slice_get};
ghost use Rattle.bril_tree.specs.Identifier.{is_identifier};
ghost use Rattle.side_laws.specs.Sided.{AreExits};
ghost use Rattle.side_traces.specs.Exits.{exit_of};
ghost use Rattle.side_traces.specs.Names.{AreExitNames, side_name};

use bril_tree::name::Name;
use bril_tree::numbered_function::Func;
use bril_tree::sequence::Seq;
use itoa::Buffer;
use pass_make::taken_labels;
use side_pairs::{PairedGuard, Pairs};
use std::alloc::{AllocError, Global};
use std::marker::Model;

/// The side exit of a paired guard, and the name of its label.
#[derive(Clone, Copy, Drop)]
pub(crate) struct Exit<'e> {
    pub pair: PairedGuard<'e>,
    pub name: &'e Name,
}

/// The side exits of a function's paired guards, in their order.
#[derive(Drop)]
pub(crate) struct Exits {
    pairs: Pairs,
    names: Seq<Name>,
}

impl Model for Exits {
    ghost use Rattle.std.specs.Prelude.{◌≡◌, List, length};
    ghost use Rattle.side_laws.specs.Sided.{SideExit};
    ghost use Rattle.side_traces.specs.Names.{exits_with};

    ghost Value = { List SideExit };

    ghost view = { λ e. exits_with e.pairs e.names };

    ghost invariant = { λ e. length e.names ≡ length e.pairs };
}

// The name of the label of the exit of a number, before any `_`.
fn side_base(alloc: Global, number: u64) -> Result<Vec<u8>, AllocError>
    ensures is { IfOk result (λ base. base.items ≡ side_name number) }
    ensures ident { IfOk result (λ base. IsTrue (is_identifier base.items)) }
{
    let mut digits = Buffer::new();
    let mut base = Vec::from_slice(alloc, b"side".as_slice())?;
    base.extend_from_slice(digits.format(number).as_bytes())?;
    Ok(base)
}

// The names of so many labels, from number 1 on, each fresh among those of the function.
fn exit_names(alloc: Global, func: &Func, count: usize) -> Result<Seq<Name>, AllocError>
    ensures long { IfOk result (λ names. length names ≡ count) }
    ensures fresh { IfOk result (AreExitNames func.now.labels 1) }
{
    let taken = taken_labels(alloc, func)?;
    let mut names = Seq::new(alloc);
    for place in 0..count {
        let base = side_base(alloc, place as u64 + 1)?;
        names.push(taken.fresh(alloc, base)?)?;
    }
    Ok(names)
}

impl Exits {
    /// The side exits of these paired guards of the function. The only error is out of memory.
    pub(crate) fn of(alloc: Global, func: &Func, pairs: Pairs) -> Result<Exits, AllocError>
        ensures { IfOk result (AreExits func.now.labels 1 pairs) }
    {
        let names = exit_names(alloc, func, pairs.len())?;
        Ok(Exits { pairs, names })
    }

    /// How many there are. Takes no memory.
    pub(crate) fn len(&self) -> usize
        ensures { result ≡ length self.now }
    {
        self.pairs.len()
    }

    /// One of them, by its place. Takes no memory.
    pub(crate) fn exit(&self, place: usize) -> Exit<'_>
        requires { place < length self.now }
        ensures { Some (exit_of result) ≡ slice_get self.now place }
    {
        Exit {
            pair: self.pairs.pair(place),
            name: &self.names.as_slice()[place],
        }
    }
}
