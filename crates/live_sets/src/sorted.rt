// Points in rising order.

ghost use Rattle.std.specs.Prelude.{◌≡◌, ◌≤◌, ◌↔◌, ℕ, IsTrue, IfOk};
ghost use Rattle.std.specs.List.{Contains};
ghost use Rattle.std.specs.List.Sorted.{IsNonDecreasing};
ghost use Rattle.flow_graph.specs.Faults.{IsLeastOf};
ghost use Rattle.live_sets.specs.Among.{is_among};
ghost use Rattle.live_sets.specs.Greatest.{IsGreatestOf};

use std::alloc::{AllocError, Global};

// Points in rising order.
#[derive(Drop)]
pub(crate) struct SortedPoints {
    pub points: Vec<u32>,
    ghost rising: { IsNonDecreasing points.items },
}

impl SortedPoints {
    // These points in order.
    pub fn of(alloc: Global, found: &[u32]) -> Result<SortedPoints, AllocError>
        ensures { IfOk result (λ sorted. (point : ℕ) → IsTrue (is_among point sorted.points.items) ↔ Contains found.now point) }
    {
        let mut points = Vec::new(alloc);
        for point in found {
            points.push(*point)?;
        }
        points.sort_unstable();
        Ok(SortedPoints { points })
    }

    // Whether it is one of the points. Takes no memory.
    pub fn contains(&self, point: u32) -> bool
        ensures { result ≡ is_among point self.now.points.items }
    {
        self.points.as_slice().binary_search(&point).is_ok()
    }

    // The first of the points, where there is one. Takes no memory.
    pub fn first(&self) -> Option<u32>
        ensures { IsLeastOf (λ point. IsTrue (is_among point self.now.points.items)) result }
    {
        match self.points.as_slice().first() {
            None => None,
            Some(point) => Some(*point),
        }
    }

    // The first of the points from `from` on, where there is one. Takes no memory.
    pub fn next(&self, from: u32) -> Option<u32>
        ensures { IsLeastOf (λ point. (from ≤ point) × IsTrue (is_among point self.now.points.items)) result }
    {
        match self.points.as_slice().binary_search(&from) {
            Ok(_) => Some(from),
            Err(place) => match self.points.as_slice().get(place) {
                None => None,
                Some(point) => Some(*point),
            },
        }
    }

    // The last of the points, where there is one. Takes no memory.
    pub fn last(&self) -> Option<u32>
        ensures { IsGreatestOf (λ point. IsTrue (is_among point self.now.points.items)) result }
    {
        match self.points.as_slice().last() {
            None => None,
            Some(point) => Some(*point),
        }
    }
}
