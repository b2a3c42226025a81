// How paths pass an item.

ghost use Rattle.std.specs.Prelude.{◌≡◌};
ghost use Rattle.trace_recorder.specs.Kept.{sight_seen};
ghost use Rattle.trace_recorder.specs.Passings.{passing_of, lays_at, stops_at, takes_choice};

use crate::seen::Seen;
use trace_paths::{Meeting, item_meeting};

// What each path that goes on does at a state: it ends there, passes over the item, lays it, or lays it by a choice, true for
// its first label.
#[derive(Clone, Copy, Drop)]
pub enum Passing {
    Stops,
    Over,
    Lays,
    Turns(bool),
}

impl Passing {
    // By what a state shows.
    pub fn at(seen: &Option<Seen<'_>>) -> Passing
        ensures { result ≡ passing_of (sight_seen seen.now) }
    {
        let Some(seen) = seen else {
            return Passing::Stops;
        };
        match item_meeting(seen.item) {
            Meeting::Over | Meeting::To(_) => Passing::Over,
            Meeting::Lays => Passing::Lays,
            Meeting::Turns(_, _) => Passing::Turns(seen.choice),
            Meeting::Stops => Passing::Stops,
        }
    }

    // Whether the item is laid.
    pub fn lays(self) -> bool
        ensures { result ≡ lays_at self }
    {
        matches!(self, Passing::Lays | Passing::Turns(_))
    }

    // Whether all paths end.
    pub fn stops(self) -> bool
        ensures { result ≡ stops_at self }
    {
        matches!(self, Passing::Stops)
    }

    // Whether a choice is taken.
    pub fn takes_choice(self) -> bool
        ensures { result ≡ takes_choice self }
    {
        matches!(self, Passing::Turns(_))
    }
}
