// A table of different names.

ghost use Rattle.std.specs.Prelude.{◌≡◌, [], IfOk, OnErr};
ghost use Rattle.bril_names.specs.Numbering.{Finds, Adds};

use indexmap::IndexSet;
use std::alloc::{AllocError, Global};
use std::marker::Model;

/// Different names, at most 2^32, numbered from 0 in the order in which they came.
#[derive(Drop)]
pub struct Names<'t> {
    held: IndexSet<&'t [u8]>,
}

impl<'t> Model for Names<'t> {
    ghost use Rattle.std.specs.Prelude.{List, ℕ, map, length, ◌≤◌, ◌^◌};

    ghost Value = { List (List ℕ) };

    ghost view = { λ n. map (λ k. k.now) n.held.keys };

    ghost invariant = { λ n. length n.held.keys ≤ 2 ^ 32 };
}

impl<'t> Names<'t> {
    /// No names; those that come will lie in memory of `alloc`. Takes no memory.
    pub fn new(alloc: Global) -> Names<'t>
        ensures { result ≡ [] }
    {
        Names {
            held: IndexSet::new(alloc),
        }
    }

    /// The number of a name, and None exactly where it isn't there. Takes no memory.
    pub fn find(&self, name: &[u8]) -> Option<u32>
        ensures { Finds self.now name.now result }
    {
        let number = self.held.get_index_of(name)?;
        Some(number as u32)
    }

    /// Puts a name last, unless it is there, and says whether it was new. An error comes where memory or
    /// numbers of 32 bits are wanting, and leaves the names as they were.
    pub fn add(&mut self, name: &'t [u8]) -> Result<bool, AllocError>
        ensures ok { IfOk result (λ new. Adds self.old name.now self.new new) }
        ensures err { OnErr result (self.new ≡ self.old) }
    {
        if u32::try_from(self.held.len()).is_err() {
            return Err(AllocError);
        }
        Ok(self.held.insert(name)?)
    }
}
