// Windows of locations, which are searched at once.

ghost use Rattle.std.specs.Prelude.{◌≡◌, ◌<◌, ◌↔◌, ℕ, true, Some, map, IfOk};
ghost use Rattle.definite_assignment.specs.Window.{location_in, place_of, window_of, windowed};
ghost use Rattle.graph_search.specs.Path.{is_other};
ghost use Rattle.graph_search.specs.Sets.{has_bit};

use flow_graph::Access;
use graph_search::{Arc, Gates, Seed, all_bits, all_but, one_bit};
use std::alloc::{AllocError, Global};

// The window of a location: of 128 locations in a row the variables are one, and their shadows another.
fn window_of(location: u32) -> u32
    ensures { result ≡ window_of location }
{
    location / 128 * 2 + location % 2
}

// The number of a location in its window.
fn place_of(location: u32) -> u32
    ensures place { result ≡ place_of location }
    ensures few { result < 64 }
{
    location / 2 % 64
}

// The reads, as accesses of the windows of their locations.
pub(crate) fn windowed(alloc: Global, reads: &[Access]) -> Result<Vec<Access>, AllocError>
    ensures { IfOk result (λ list. list.items ≡ map windowed reads.now) }
{
    let mut list = Vec::new(alloc);
    for read in reads {
        list.push(Access {
            item: read.item,
            location: window_of(read.location),
        })?;
    }
    Ok(list)
}

// The searches of a window's locations: each crosses the arcs that aren't labelled with its location.
#[derive(Clone, Copy, PartialEq, Eq, Debug, Drop)]
pub(crate) struct Window {
    pub number: u32,
}

impl Gates for Window {
    ghost use Rattle.definite_assignment.specs.Window.{location_in};
    ghost use Rattle.graph_search.specs.Path.{other_than};

    ghost opens = { λ window k arc. other_than (location_in window.number k) arc };

    fn open_bits(&self, arc: Arc) -> u64 {
        match arc.label {
            None => all_bits(),
            Some(location) => self.bits_past(location),
        }
    }
}

impl Window {
    // The word whose bits are the locations of the window other than this one.
    fn bits_past(&self, location: u32) -> u64
        ensures { (k : ℕ) → k < 64 → (has_bit result k ≡ true) ↔ (is_other (location_in self.now.number k) (Some location) ≡ true) }
    {
        if window_of(location) == self.number {
            return all_but(place_of(location));
        }
        all_bits()
    }
}

// The seed of the read: the search of its location begins at its item.
pub(crate) fn seed_of(read: Access) -> Seed
    ensures node { result.node ≡ read.item }
    ensures bits { (k : ℕ) → (has_bit result.bits k ≡ true) ↔ (k ≡ place_of read.location) }
{
    Seed {
        node: read.item,
        bits: one_bit(place_of(read.location)),
    }
}
