// Points by marks.

ghost use Rattle.std.specs.Prelude.{◌≡◌, ◌<◌, ◌≤◌, ◌^◌, ◌↔◌, ℕ, IsTrue, IfOk, false, length, slice_index_or};
ghost use Rattle.std.specs.List.{All, Contains};
ghost use Rattle.flow_graph.specs.Faults.{IsLeastOf};
ghost use Rattle.live_sets.specs.Greatest.{IsGreatestOf};

use graph_search::is_marked;
use std::alloc::{AllocError, Global};

// A mark for each point of a function, which tells whether it is in the set.
#[derive(Drop)]
pub(crate) struct MarkedPoints {
    pub marks: Vec<bool>,
    ghost few: { length marks.items ≤ 2 ^ 32 },
}

impl MarkedPoints {
    // The marks of these points of a function of so many.
    pub fn of(alloc: Global, found: &[u32], count: usize) -> Result<MarkedPoints, AllocError>
        requires within { All (λ point. point < count) found.now }
        requires few { count ≤ 2 ^ 32 }
        ensures { IfOk result (λ marked. (point : ℕ) → IsTrue (slice_index_or marked.marks.items point false) ↔ Contains found.now point) }
    {
        let marks = marks_of(alloc, found, count)?;
        Ok(MarkedPoints { marks })
    }

    // Whether the point is marked; false where it has no mark. Takes no memory.
    pub fn contains(&self, point: u32) -> bool
        ensures { result ≡ slice_index_or self.now.marks.items point false }
    {
        is_marked(self.marks.as_slice(), point as usize)
    }

    // The first point that is marked, where there is one. Takes no memory.
    pub fn first(&self) -> Option<u32>
        ensures { IsLeastOf (λ point. IsTrue (slice_index_or self.now.marks.items point false)) result }
    {
        for point in 0..self.marks.len() {
            if self.marks[point] {
                return Some(point as u32);
            }
        }
        None
    }

    // The first point from `from` on that is marked, where there is one. Takes no memory.
    pub fn next(&self, from: u32) -> Option<u32>
        ensures { IsLeastOf (λ point. (from ≤ point) × IsTrue (slice_index_or self.now.marks.items point false)) result }
    {
        for point in from as usize..self.marks.len() {
            if self.marks[point] {
                return Some(point as u32);
            }
        }
        None
    }

    // The last point that is marked, where there is one. Takes no memory.
    pub fn last(&self) -> Option<u32>
        ensures { IsGreatestOf (λ point. IsTrue (slice_index_or self.now.marks.items point false)) result }
    {
        let mut end = self.marks.len();
        while end > 0 {
            end -= 1;
            if self.marks[end] {
                return Some(end as u32);
            }
        }
        None
    }
}

// A mark for each of so many points, which tells whether it was found.
fn marks_of(alloc: Global, found: &[u32], count: usize) -> Result<Vec<bool>, AllocError>
    requires { All (λ point. point < count) found.now }
    ensures long { IfOk result (λ marks. length marks.items ≡ count) }
    ensures marked { IfOk result (λ marks. (point : ℕ) → IsTrue (slice_index_or marks.items point false) ↔ Contains found.now point) }
{
    let mut marks = vec![in alloc; false; count]?;
    for point in found {
        marks[*point as usize] = true;
    }
    Ok(marks)
}
