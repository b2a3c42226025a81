// A table of different names.

ghost use Rattle.std.specs.Prelude.{◌≡◌, [], ◌∷◌, ◌++◌, not, bytes_eq, is_some, position, IfOk, OnErr, if◌then◌else◌};
ghost use Rattle.import_linker.specs.Names.{contains};

use indexmap::IndexSet;
use std::alloc::{AllocError, Global};
use std::marker::Model;

/// Different names, in the order in which they came.
#[derive(Drop)]
pub(crate) struct Table<'t> {
    held: IndexSet<&'t [u8]>,
}

impl<'t> Model for Table<'t> {
    ghost use Rattle.std.specs.Prelude.{List, ℕ, map};

    ghost Value = { List (List ℕ) };

    ghost view = { λ n. map (λ k. k.now) n.held.keys };
}

impl<'t> Table<'t> {
    /// No names. Takes no memory.
    pub(crate) fn new(alloc: Global) -> Table<'t>
        ensures { result ≡ [] }
    {
        Table {
            held: IndexSet::new(alloc),
        }
    }

    /// Whether a name is there. Takes no memory.
    pub(crate) fn has(&self, name: &[u8]) -> bool
        ensures { result ≡ contains self.now name.now }
    {
        self.held.contains(name)
    }

    /// The place of a name, from 0. Takes no memory.
    pub(crate) fn find(&self, name: &[u8]) -> Option<usize>
        ensures place { result ≡ position (bytes_eq name.now) self.now }
        ensures found { is_some result ≡ contains self.now name.now }
    {
        self.held.get_index_of(name)
    }

    /// Puts a name last, unless it is there, and says whether it was new.
    pub(crate) fn add(&mut self, name: &'t [u8]) -> Result<bool, AllocError>
        ensures ok { IfOk result (λ new. (new ≡ not (contains self.old name.now))
            × (self.new ≡ (if contains self.old name.now then self.old else self.old ++ name.now ∷ []))) }
        ensures err { OnErr result (self.new ≡ self.old) }
    {
        Ok(self.held.insert(name)?)
    }
}
