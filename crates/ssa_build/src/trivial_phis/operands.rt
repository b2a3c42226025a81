// What `get`s are set from.

ghost use Rattle.std.specs.Prelude.{◌≡◌, ◌<◌, ◌≤◌, ◌^◌, ◌-◌, IfOk, length, map, slice_index, vec_len};
ghost use Rattle.std.specs.List.{All};
ghost use Rattle.graph_search.specs.Adjacency.{EndsRow};
ghost use Rattle.ssa_build.specs.trivial_phis.Trivial.{keys_of, sources_of};

use graph_search::Adjacency;
use std::alloc::{AllocError, Global};
use std::marker::Model;

/// A definition from which a `get` is set where an edge leaves: the number of the `get`, from 0, and that of the definition.
#[derive(Clone, Copy, PartialEq, Eq, Debug, Drop)]
pub struct Operand {
    pub get: u32,
    pub from: u32,
}

/// The definitions that each `get` is set from.
#[derive(Drop)]
pub struct Operands {
    list: Vec<Operand>,
    rows: Adjacency,
}

impl Model for Operands {
    ghost use Rattle.std.specs.Prelude.{◌≡◌, ◌<◌, ◌^◌, map, length};
    ghost use Rattle.std.specs.List.{All};
    ghost use Rattle.ssa_build.specs.trivial_phis.Trivial.{OperandsView};

    ghost Value = { OperandsView };

    ghost view = { λ o. record { gets = o.rows.count; list = o.list.items } };

    ghost invariant = { λ o. (o.rows.keys ≡ map (λ operand. operand.get) o.list.items) × All (λ operand. operand.get < o.rows.count) o.list.items };
}

impl Operands {
    /// The operands of so many `get`s, in any order. Fails where memory is lacking.
    pub fn of(alloc: Global, gets: usize, list: Vec<Operand>) -> Result<Operands, AllocError>
        requires below { All (λ operand. operand.get < gets) list.items }
        requires few { vec_len list < 2 ^ 32 - 1 }
        ensures gets { IfOk result (λ operands. operands.gets ≡ gets) }
        ensures list { IfOk result (λ operands. operands.list ≡ list.items) }
    {
        let keys = list.iter().map(|operand| operand.get).collect(alloc)?;
        let rows = Adjacency::of(alloc, gets, keys)?;
        Ok(Operands { list, rows })
    }

    /// The number of `get`s. Takes no memory.
    pub fn gets(&self) -> usize
        ensures { result ≡ self.now.gets }
    {
        self.rows.count()
    }

    // The end of the operands of a `get` in the list.
    pub(crate) fn end(&self, get: u32) -> u32
        requires { get < self.now.gets }
        ensures { EndsRow (keys_of self.now) get (length self.now.list) result }
    {
        self.rows.end(get)
    }

    // The end of those before a place.
    pub(crate) fn before(&self, place: u32) -> u32
        requires { place < length self.now.list }
        ensures { EndsRow (keys_of self.now) (slice_index (keys_of self.now) place) place result }
    {
        self.rows.before(place)
    }

    // The definition at a place.
    pub(crate) fn from(&self, place: u32) -> u32
        requires { place < length self.now.list }
        ensures { result ≡ slice_index (sources_of self.now) place }
    {
        self.list[place as usize].from
    }
}
