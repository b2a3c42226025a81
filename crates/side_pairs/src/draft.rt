// The pairs that were found, with one list of kept items for all of them.

ghost use Rattle.std.specs.Prelude.{◌≡◌, ◌≤◌, ◌<◌, ◌++◌, ◌∷◌, [], Some, OnOk, drop, length, slice_get};
ghost use Rattle.side_pairs.specs.Pairs.{pair_of};

use crate::pairs::PairedGuard;
use std::alloc::{AllocError, Global};
use std::marker::Model;

// A paired guard of the list: of the kept items it has `count`, from `first` on.
#[derive(Clone, Copy, Drop)]
pub(crate) struct Found {
    pub guard: u32,
    pub bail: u32,
    pub first: usize,
    pub count: usize,
    pub other: u32,
}

// Pairs, and the items that are kept in their runs, as clauses see them by two lists.
#[derive(Drop)]
pub(crate) struct Draft {
    kept: Vec<u32>,
    found: Vec<Found>,
}

impl Model for Draft {
    ghost use Rattle.std.specs.Prelude.{◌≤◌, ◌+◌, length, map};
    ghost use Rattle.std.specs.List.{All};
    ghost use Rattle.side_pairs.specs.Draft.{DraftView, found_pair};

    ghost Value = { DraftView };

    ghost view = { λ d. record { kept = d.kept.items; pairs = map (found_pair d.kept.items) d.found.items } };

    ghost invariant = { λ d. All (λ f. f.first + f.count ≤ length d.kept.items) d.found.items };
}

impl Draft {
    // None yet.
    pub fn new(alloc: Global) -> Draft
        ensures kept { result.kept ≡ [] }
        ensures pairs { result.pairs ≡ [] }
    {
        Draft {
            kept: Vec::new(alloc),
            found: Vec::new(alloc),
        }
    }

    // How many items are kept.
    pub fn kept_count(&self) -> usize
        ensures { result ≡ length self.now.kept }
    {
        self.kept.len()
    }

    // Keeps one item more.
    pub fn keep(&mut self, item: u32) -> Result<(), AllocError>
        ensures kept { OnOk result (self.new.kept ≡ self.old.kept ++ item ∷ []) }
        ensures pairs { OnOk result (self.new.pairs ≡ self.old.pairs) }
    {
        self.kept.push(item)?;
        Ok(())
    }

    // Adds a pair, whose kept items are all from `first` on.
    pub fn pair(
        &mut self,
        guard: u32,
        bail: u32,
        other: u32,
        first: usize,
    ) -> Result<(), AllocError>
        requires { first ≤ length self.old.kept }
        ensures kept { OnOk result (self.new.kept ≡ self.old.kept) }
        ensures pairs { OnOk result (self.new.pairs ≡ self.old.pairs ++ record { guard = guard; bail = bail; kept = drop first self.old.kept; other = other } ∷ []) }
    {
        let count = self.kept.len() - first;
        self.found.push(Found {
            guard,
            bail,
            first,
            count,
            other,
        })?;
        Ok(())
    }

    // How many pairs there are.
    pub fn len(&self) -> usize
        ensures { result ≡ length self.now.pairs }
    {
        self.found.len()
    }

    // One of them, by its place.
    pub fn paired(&self, place: usize) -> PairedGuard<'_>
        requires { place < length self.now.pairs }
        ensures { Some (pair_of result) ≡ slice_get self.now.pairs place }
    {
        let found = self.found[place];
        PairedGuard {
            guard: found.guard,
            bail: found.bail,
            kept: &self.kept[found.first..found.first + found.count],
            other: found.other,
        }
    }
}
