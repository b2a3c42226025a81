// Homes and what is saved, as tables.

ghost use Rattle.std.specs.Prelude.{◌≡◌, slice_get};
ghost use Rattle.bril_tree.specs.Place.{location_of};
ghost use Rattle.graph_search.specs.Marks.{is_marked};
ghost use Rattle.shadow_place.specs.Tables.{home_if, home_in, home_of, is_marked_if, is_saved_in, is_saved_of};

use bril_tree::home::Home;
use bril_tree::place::Place;
use bril_tree::sequence::Seq;
use graph_search::is_marked;

// Of a function: the home of each variable and of each variable's shadow; and for each point, if it is a `speculate`, whether its
// speculation saves a location, by the location's number: twice that of a variable, and one more for its shadow. No point has a
// row in a function in which no speculation is ever open.
#[derive(Drop)]
pub(crate) struct FunctionHomes {
    pub variables: Vec<Home>,
    pub shadows: Vec<Home>,
    pub saved: Vec<Seq<bool>>,
}

/// The homes of a program's locations, and which of them the speculation of each `speculate` saves.
#[derive(Drop)]
pub struct Placed {
    pub(crate) funcs: Vec<FunctionHomes>,
}

// The home in a row at a place; past the row's end the first word of the frame.
fn home_at(homes: &[Home], x: u32) -> Home
    ensures { result ≡ home_if (slice_get homes.now x) }
{
    match homes.get(x as usize) {
        None => Home::Frame(0),
        Some(home) => *home,
    }
}

impl FunctionHomes {
    // The home of a place. Takes no memory.
    fn home(&self, place: Place) -> Home
        ensures { result ≡ home_of self.now (location_of place) }
    {
        match place {
            Place::Var(x) => home_at(self.variables.as_slice(), x),
            Place::Shadow(x) => home_at(self.shadows.as_slice(), x),
        }
    }

    // Whether the speculation of the `speculate` at a point saves the location of a number. Takes no memory.
    fn is_saved(&self, site: u32, number: usize) -> bool
        ensures { result ≡ is_marked_if (slice_get self.now.saved.items site) number }
    {
        match self.saved.get(site as usize) {
            None => false,
            Some(row) => is_marked(row.as_slice(), number),
        }
    }

    // Whether it saves a place. Takes no memory.
    fn saved(&self, site: u32, place: Place) -> bool
        ensures { result ≡ is_saved_of self.now site (location_of place) }
    {
        match place {
            Place::Var(x) => self.is_saved(site, 2 * x as usize),
            Place::Shadow(x) => self.is_saved(site, 2 * x as usize + 1),
        }
    }
}

impl Placed {
    /// The home of a place of a function. What is no place of the program is said to be in word 0 of the frame. Takes no
    /// memory.
    pub fn home(&self, func: u32, place: Place) -> Home
        ensures { result ≡ home_in self.now func (location_of place) }
    {
        match self.funcs.get(func as usize) {
            None => Home::Frame(0),
            Some(homes) => homes.home(place),
        }
    }

    /// Whether the speculation of the `speculate` at a point of a function saves a place: it has a shadow word while that
    /// speculation is open. What is no place of the program is saved by none, and no other point saves a place. Takes no memory.
    pub fn saved(&self, func: u32, site: u32, place: Place) -> bool
        ensures { result ≡ is_saved_in self.now func site (location_of place) }
    {
        match self.funcs.get(func as usize) {
            None => false,
            Some(homes) => homes.saved(site, place),
        }
    }
}
