// Sets of points.

ghost use Rattle.std.specs.Prelude.{◌≡◌, ◌<◌, ◌≤◌, ◌^◌, ◌↔◌, ℕ, IsTrue, IfOk};
ghost use Rattle.std.specs.List.{All, Contains};
ghost use Rattle.flow_graph.specs.Faults.{IsLeastOf};
ghost use Rattle.live_sets.specs.Greatest.{IsGreatestOf};
ghost use Rattle.live_sets.specs.Points.{has_point};

use crate::marked::MarkedPoints;
use crate::sorted::SortedPoints;
use std::alloc::{AllocError, Global};

// A set of points: a mark for each point of the function where the set is large, else the points in order. Either takes
// memory in proportion to the set.
#[derive(Drop)]
pub(crate) enum Points {
    Marked(MarkedPoints),
    Sorted(SortedPoints),
}

// A set is large where it has more than one of so many points. A mark takes a byte for each point of the function and is looked up at
// once; a point in order takes four bytes, and a look-up halves the list. So where there are marks, they take eight times as much as the
// list would, at most.
const LARGE: usize = 32;

impl Points {
    // The set of these points of a function of so many.
    pub fn of(alloc: Global, found: &[u32], count: usize) -> Result<Points, AllocError>
        requires within { All (λ point. point < count) found.now }
        requires few { count ≤ 2 ^ 32 }
        ensures { IfOk result (λ points. (point : ℕ) → IsTrue (has_point points point) ↔ Contains found.now point) }
    {
        if found.len() > count / LARGE {
            return Ok(Points::Marked(MarkedPoints::of(alloc, found, count)?));
        }
        Ok(Points::Sorted(SortedPoints::of(alloc, found)?))
    }

    // Whether the point is in the set. Takes no memory.
    pub fn contains(&self, point: u32) -> bool
        ensures { result ≡ has_point self.now point }
    {
        match self {
            Points::Marked(marked) => marked.contains(point),
            Points::Sorted(sorted) => sorted.contains(point),
        }
    }

    // The first of the points, where there is one. Takes no memory.
    pub fn first(&self) -> Option<u32>
        ensures { IsLeastOf (λ point. IsTrue (has_point self.now point)) result }
    {
        match self {
            Points::Marked(marked) => marked.first(),
            Points::Sorted(sorted) => sorted.first(),
        }
    }

    // The first of the points from `from` on, where there is one. Takes no memory.
    pub fn next(&self, from: u32) -> Option<u32>
        ensures { IsLeastOf (λ point. (from ≤ point) × IsTrue (has_point self.now point)) result }
    {
        match self {
            Points::Marked(marked) => marked.next(from),
            Points::Sorted(sorted) => sorted.next(from),
        }
    }

    // The last of the points, where there is one. Takes no memory.
    pub fn last(&self) -> Option<u32>
        ensures { IsGreatestOf (λ point. IsTrue (has_point self.now point)) result }
    {
        match self {
            Points::Marked(marked) => marked.last(),
            Points::Sorted(sorted) => sorted.last(),
        }
    }
}
