// The paths of a program's files, by number.

ghost use Rattle.std.specs.Prelude.{◌≡◌, [], Some, None, length, slice_get, MatchOption, OnErr, OnOk};
ghost use Rattle.import_linker.specs.Order.{added, file_at, is_known};

use indexmap::IndexSet;
use std::alloc::{AllocError, Global};
use std::marker::Model;

/// Different paths, numbered from 0 in the order in which they came.
#[derive(Drop)]
pub(crate) struct KnownPaths {
    held: IndexSet<String>,
}

impl Model for KnownPaths {
    ghost use Rattle.std.specs.Prelude.{List, ℕ, map};
    ghost use Rattle.std.specs.String.{string_bytes};

    ghost Value = { List (List ℕ) };

    ghost view = { λ p. map string_bytes p.held.keys };
}

impl KnownPaths {
    /// No paths. Takes no memory.
    pub(crate) fn new(alloc: Global) -> KnownPaths
        ensures { result ≡ [] }
    {
        KnownPaths {
            held: IndexSet::new(alloc),
        }
    }

    /// How many paths there are. Takes no memory.
    pub(crate) fn count(&self) -> usize
        ensures { result ≡ length self.now }
    {
        self.held.len()
    }

    /// The path of a number, and None exactly where there is none. Takes no memory.
    pub(crate) fn get(&self, number: usize) -> Option<&str>
        ensures { MatchOption result (slice_get self.now number ≡ None) (λ path. slice_get self.now number ≡ Some path.now) }
    {
        let path = self.held.get_index(number)?;
        Some(path.as_str())
    }

    /// Whether a path is there. Takes no memory.
    pub(crate) fn has(&self, path: &str) -> bool
        ensures { result ≡ is_known path.now self.now }
    {
        self.held.contains(path)
    }

    /// The number of a path, and the number of all where it isn't there. Takes no memory.
    pub(crate) fn number_of(&self, path: &str) -> usize
        ensures { result ≡ file_at self.now path.now }
    {
        match self.held.get_index_of(path) {
            Some(number) => number,
            None => self.held.len(),
        }
    }

    /// Puts a path last, unless it is there.
    pub(crate) fn add(&mut self, alloc: Global, path: &str) -> Result<(), AllocError>
        ensures ok { OnOk result (self.new ≡ added self.old path.now) }
        ensures err { OnErr result (self.new ≡ self.old) }
    {
        let copy = String::from_str(alloc, path)?;
        self.held.insert(copy)?;
        Ok(())
    }
}
