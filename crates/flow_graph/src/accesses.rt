// Accesses of locations by items, in rows by the locations.

ghost use Rattle.std.specs.Prelude.{◌≡◌, ◌≤◌, ◌<◌, ◌+◌, ◌^◌, ◌-◌, ◌↔◌, ℕ, length, slice_index, vec_len, IfOk};
ghost use Rattle.std.specs.List.{All, Contains};
ghost use Rattle.flow_graph.specs.Accesses.{Accesses, locations_of};
ghost use Rattle.graph_search.specs.Adjacency.{EndsRow};

use crate::reads::Access;
use graph_search::Adjacency;
use std::alloc::{AllocError, Global};
use std::marker::Model;

/// Accesses of locations by items, as reads or assignments, in a list; the row of a location is the indices of its
/// accesses, which are read from the last one to the first.
#[derive(Drop)]
pub struct AccessLists {
    list: Vec<Access>,
    rows: Adjacency,
}

impl Model for AccessLists {
    ghost use Rattle.std.specs.Prelude.{◌≡◌, ◌<◌, ◌≤◌, ◌^◌};
    ghost use Rattle.std.specs.List.{All};
    ghost use Rattle.flow_graph.specs.Accesses.{AccessesView, locations_of};

    ghost Value = { AccessesView };

    ghost view = { λ a. record { locations = a.rows.count; list = a.list.items } };

    ghost invariant = { λ a. (a.rows.keys ≡ locations_of a.list.items) × All (λ access. access.location < a.rows.count) a.list.items × (a.rows.count ≤ 2 ^ 32) };
}

// The numbers of the locations that are accessed.
fn locations_of(alloc: Global, list: &[Access]) -> Result<Vec<u32>, AllocError>
    ensures { IfOk result (λ locations. locations.items ≡ locations_of list.now) }
{
    let mut locations = Vec::new(alloc);
    for access in list {
        locations.push(access.location)?;
    }
    Ok(locations)
}

// The count, or one above the number where that is greater.
fn count_above(count: usize, number: u32) -> usize
    requires { count ≤ 2 ^ 32 }
    ensures same { count ≤ result }
    ensures above { number < result }
    ensures few { result ≤ 2 ^ 32 }
{
    if (number as usize) < count {
        return count;
    }
    number as usize + 1
}

// A count above the numbers of all locations that are accessed.
fn location_count(list: &[Access]) -> usize
    ensures above { All (λ access. access.location < result) list.now }
    ensures few { result ≤ 2 ^ 32 }
{
    let mut count = 0;
    for access in list {
        count = count_above(count, access.location);
    }
    count
}

impl AccessLists {
    /// These accesses, by their locations. Takes time and memory in proportion to their number and to the greatest number
    /// of a location.
    pub fn of(alloc: Global, list: Vec<Access>) -> Result<AccessLists, AllocError>
        requires { vec_len list < 2 ^ 32 - 1 }
        ensures { IfOk result (λ accesses. accesses.list ≡ list.items) }
    {
        let count = location_count(list.as_slice());
        let rows = Adjacency::of(alloc, count, locations_of(alloc, list.as_slice())?)?;
        Ok(AccessLists { list, rows })
    }

    /// A bound of the numbers of the locations. Takes no memory.
    pub fn locations(&self) -> usize
        ensures same { result ≡ self.now.locations }
        ensures above { All (λ access. access.location < result) self.now.list }
        ensures few { result ≤ 2 ^ 32 }
    {
        self.rows.count()
    }

    /// All accesses, in their order. Takes no memory.
    pub fn list(&self) -> &[Access]
        ensures { result.now ≡ self.now.list }
    {
        self.list.as_slice()
    }

    /// The end of a location's row: one past the last index of an access of the location, or 0 where there is none. Takes
    /// no memory.
    pub fn end(&self, location: u32) -> u32
        requires { location < self.now.locations }
        ensures { EndsRow (locations_of self.now.list) location (length self.now.list) result }
    {
        self.rows.end(location)
    }

    /// The end of a row before one of its indices: one past the last index before it of an access of the same location, or 0
    /// where there is none. Takes no memory.
    pub fn before(&self, index: u32) -> u32
        requires { index < length self.now.list }
        ensures { EndsRow (locations_of self.now.list) (slice_index (locations_of self.now.list) index) index result }
    {
        self.rows.before(index)
    }

    /// The items that access the location of a number, one for each access. An error means that there is no memory.
    pub fn items(&self, alloc: Global, location: u32) -> Result<Vec<u32>, AllocError>
        ensures { IfOk result (λ items. (item : ℕ) → Contains items.items item ↔ Accesses self.now.list location item) }
    {
        if location as usize >= self.locations() {
            return Ok(Vec::new(alloc));
        }
        self.row_items(alloc, location)
    }

    // The items of the row of a location.
    fn row_items(&self, alloc: Global, location: u32) -> Result<Vec<u32>, AllocError>
        requires { location < self.now.locations }
        ensures { IfOk result (λ items. (item : ℕ) → Contains items.items item ↔ Accesses self.now.list location item) }
    {
        let mut items = Vec::new(alloc);
        let mut end = self.end(location);
        while end > 0 {
            let index = end - 1;
            items.push(self.list[index as usize].item)?;
            end = self.before(index);
        }
        Ok(items)
    }
}
