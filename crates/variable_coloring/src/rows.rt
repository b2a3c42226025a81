// Lists of numbers, in rows.

ghost use Rattle.std.specs.Prelude.{◌≡◌, ◌<◌, [], IfOk, OnOk, length, replicate, slice_index, slice_set};
ghost use Rattle.std.specs.List.{swap_remove};
ghost use Rattle.variable_coloring.specs.Growing.{row_at, with_number};

use std::alloc::{AllocError, Global};
use std::marker::Model;

// Rows of numbers.
#[derive(Drop)]
pub(crate) struct Rows {
    lists: Vec<Vec<u32>>,
}

impl Model for Rows {
    ghost use Rattle.std.specs.Prelude.{ℕ, List, map};

    ghost Value = { List (List ℕ) };

    ghost view = { λ r. map (λ list. list.items) r.lists.items };
}

impl Rows {
    // So many empty rows.
    pub(crate) fn new(alloc: Global, count: usize) -> Result<Rows, AllocError>
        ensures { IfOk result (λ rows. rows ≡ replicate count []) }
    {
        let mut lists = Vec::new(alloc);
        for _ in 0..count {
            lists.push(Vec::new(alloc))?;
        }
        Ok(Rows { lists })
    }

    // A row.
    pub(crate) fn row(&self, row: usize) -> &[u32]
        requires { row < length self.now }
        ensures { result.now ≡ row_at self.now row }
    {
        self.lists[row].as_slice()
    }

    // Adds the number at the end of a row.
    pub(crate) fn push(&mut self, row: usize, number: u32) -> Result<(), AllocError>
        requires { row < length self.old }
        ensures { OnOk result (self.new ≡ with_number self.old row number) }
    {
        self.lists[row].push(number)?;
        Ok(())
    }

    // Takes the number at a place out of a row; the last one comes to its place.
    pub(crate) fn take(&mut self, row: usize, place: usize) -> u32
        requires row { row < length self.old }
        requires place { place < length (row_at self.old row) }
        ensures value { result ≡ slice_index (row_at self.old row) place }
        ensures rows { self.new ≡ slice_set self.old row (swap_remove (row_at self.old row) place result) }
    {
        self.lists[row].swap_remove(place)
    }
}
