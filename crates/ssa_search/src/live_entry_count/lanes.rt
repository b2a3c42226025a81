// The first points of 64 locations at once, and the gates of their searches.

ghost use Rattle.std.specs.Prelude.{◌≡◌, ◌<◌, ◌≤◌, ◌+◌, ◌*◌, ◌^◌, ◌↔◌, ℕ, Some, true, length, slice_index, slice_set, IfOk};
ghost use Rattle.graph_search.specs.Sets.{has_bit};
ghost use Rattle.ssa_search.specs.live_entry_count.Lanes.{AreAbove, opens_in};
ghost use Rattle.ssa_search.specs.placing.Blocks.{passes_to};

use graph_search::{Arc, Gates, all_bits, one_bit};
use std::alloc::{AllocError, Global};

// How many locations are searched at once.
pub(crate) const LANES: u32 = 64;

// For each lane and head the first point of the block that assigns the lane's location, above all points where none does; and for
// each head a point that is no greater than those of all lanes.
#[derive(Drop)]
pub(crate) struct Lanes {
    pub points: Vec<u32>,
    pub lows: Vec<u32>,
    ghost long: { length points.items ≡ 64 * length lows.items },
    ghost low: { (head lane : ℕ) → head < length lows.items → lane < 64 → slice_index lows.items head ≤ slice_index points.items (64 * head + lane) },
}

// The bit of a lane, where the point stands before the lane's first point.
fn lane_bit(points: &[u32], head: u32, lane: u32, point: u32) -> u64
    requires few { lane < 64 }
    requires within { 64 * head + 64 ≤ length points.now }
    ensures only { (j : ℕ) → has_bit result j ≡ true → (j ≡ lane) × (point < slice_index points.now (64 * head + lane)) }
    ensures there { point < slice_index points.now (64 * head + lane) → has_bit result lane ≡ true }
{
    if point < points[64 * head as usize + lane as usize] {
        one_bit(lane)
    } else {
        0
    }
}

// The lanes whose points are behind this one.
fn lanes_behind(points: &[u32], head: u32, point: u32) -> u64
    requires { 64 * head + 64 ≤ length points.now }
    ensures { (k : ℕ) → k < 64 → (has_bit result k ≡ true) ↔ (passes_to (slice_index points.now (64 * head + k)) (Some point) ≡ true) }
{
    let mut bits = 0;
    for k in 0..LANES {
        bits |= lane_bit(points, head, k, point);
    }
    bits
}

impl Lanes {
    // No point for any lane, for so many heads.
    pub fn new(alloc: Global, heads: usize) -> Result<Lanes, AllocError>
        requires { heads < 2 ^ 32 }
        ensures heads { IfOk result (λ lanes. length lanes.lows.items ≡ heads) }
        ensures above { IfOk result (λ lanes. (i : ℕ) → i < 64 * heads → slice_index lanes.points.items i ≡ 4294967295) }
    {
        Ok(Lanes {
            points: vec![in alloc; u32::MAX; 64 * heads]?,
            lows: vec![in alloc; u32::MAX; heads]?,
        })
    }

    // Writes the point of a lane at a head.
    pub fn write(&mut self, head: u32, lane: u32, point: u32)
        requires head { head < length self.old.lows.items }
        requires lane { lane < 64 }
        ensures heads { length self.new.lows.items ≡ length self.old.lows.items }
        ensures points { self.new.points.items ≡ slice_set self.old.points.items (64 * head + lane) point }
    {
        let place = 64 * head as usize + lane as usize;
        self.lows[head as usize] = self.lows[head as usize].min(point);
        self.points[place] = point;
    }

    // Takes the point of a lane at a head out.
    pub fn erase(&mut self, head: u32, lane: u32)
        requires head { head < length self.old.lows.items }
        requires lane { lane < 64 }
        ensures heads { length self.new.lows.items ≡ length self.old.lows.items }
        ensures points { self.new.points.items ≡ slice_set self.old.points.items (64 * head + lane) 4294967295 }
    {
        self.write(head, lane, u32::MAX);
    }

    // Notes that no lane has a point at a head.
    pub fn forget(&mut self, head: u32)
        requires head { head < length self.old.lows.items }
        requires above { AreAbove self.old.points.items (length self.old.lows.items) }
        ensures heads { length self.new.lows.items ≡ length self.old.lows.items }
        ensures points { self.new.points.items ≡ self.old.points.items }
    {
        self.lows[head as usize] = u32::MAX;
    }
}

impl Gates for Lanes {
    ghost opens = { λ lanes lane arc. opens_in lanes.points.items lane arc };

    fn open_bits(&self, arc: Arc) -> u64 {
        let point = match arc.label {
            None => return all_bits(),
            Some(point) => point,
        };
        if arc.to as usize >= self.lows.len() {
            return 0;
        }
        if point < self.lows[arc.to as usize] {
            return all_bits();
        }
        lanes_behind(self.points.as_slice(), arc.to, point)
    }
}
