// One step of pairing.

ghost use Rattle.std.specs.Prelude.{◌≡◌, ◌<◌, ◌-◌, ◌+◌, ◌^◌, ℕ, List, length, slice_get};
ghost use Rattle.flow_graph.specs.Reads.{reads_from};
ghost use Rattle.side_laws.specs.Paired.{Commits, Pair, item_place};
ghost use Rattle.side_pairs.specs.Readers.{AreReaders};
ghost use Rattle.side_pairs.specs.Steps.{FromSpot, FromStep, IsBefore, IsStanding};
ghost use Rattle.side_pairs.specs.Tables.{IsPointTable};

use crate::items::is_nop_at;
use crate::labels::label_point;
use crate::meeting::{Meeting, met};
use crate::readers::Readers;
use crate::walk::{Walker, settled};
use bril_tree::numbered::Instr;

// Where pairing is: the item of the run that is next, how many items of the run are left, and the walk.
#[derive(Clone, Copy, Drop)]
pub(crate) struct Spot {
    pub item: u32,
    pub room: u32,
    pub walker: Walker,
}

// What a step does: it ends pairing, or passes over the item, or keeps it, or pairs a guard, which has this other label; then
// pairing goes on.
#[derive(Clone, Copy, Drop)]
pub(crate) enum Step {
    Ends,
    Passes(Spot),
    Keeps(Spot),
    Pairs(u32, u32, Spot),
}

// So many items further, with this walk.
fn further(spot: Spot, count: u32, left: u32, point: u32) -> Spot
    requires some { count < spot.room + 1 }
    requires few { spot.item + spot.room < 2 ^ 32 }
    ensures item { result.item ≡ spot.item + count }
    ensures room { result.room ≡ spot.room - count }
    ensures left { result.walker.left ≡ left }
    ensures point { result.walker.point ≡ point }
{
    Spot {
        item: spot.item + count,
        room: spot.room - count,
        walker: Walker { left, point },
    }
}

// What pairing does where the walk stands.
fn standing_step(
    code: &[Instr],
    points: &[u32],
    readers: &[Readers],
    spot: Spot,
    walker: Walker,
) -> Step
    requires points { IsPointTable code.now points.now }
    requires readers { AreReaders (reads_from 0 code.now) readers.now }
    requires few { length code.now < 2 ^ 32 - 1 }
    requires some { 0 < spot.room }
    requires closes { item_place (slice_get code.now (spot.item + spot.room)) ≡ Commits }
    requires left { 0 < walker.left }
    ensures before { IsBefore spot result }
    ensures goes { (bail : ℕ) (kept : List ℕ) (pairs : List Pair) → FromStep code.now bail spot kept pairs result → IsStanding code.now bail spot (walker.left - 1) walker.point kept pairs }
{
    let left = walker.left - 1;
    match met(code, readers, spot.item, walker.point) {
        Meeting::Inverts(on, off) => {
            let next = further(spot, 2, left, label_point(code, points, off));
            Step::Pairs(spot.item + 1, on, next)
        }
        Meeting::Pairs(on, off) => {
            let next = further(spot, 1, left, label_point(code, points, on));
            Step::Pairs(spot.item, off, next)
        }
        Meeting::Keeps => Step::Keeps(further(spot, 1, left, walker.point + 1)),
        Meeting::Ends => Step::Ends,
    }
}

// One step of pairing. Takes no memory.
pub(crate) fn next_step(code: &[Instr], points: &[u32], readers: &[Readers], spot: Spot) -> Step
    requires points { IsPointTable code.now points.now }
    requires readers { AreReaders (reads_from 0 code.now) readers.now }
    requires few { length code.now < 2 ^ 32 - 1 }
    requires some { 0 < spot.room }
    requires closes { item_place (slice_get code.now (spot.item + spot.room)) ≡ Commits }
    ensures before { IsBefore spot result }
    ensures goes { (bail : ℕ) (kept : List ℕ) (pairs : List Pair) → FromStep code.now bail spot kept pairs result → FromSpot code.now bail spot kept pairs }
{
    if is_nop_at(code, spot.item) {
        return Step::Passes(further(spot, 1, spot.walker.left, spot.walker.point));
    }
    let walker = settled(code, points, spot.walker);
    if walker.left == 0 {
        return Step::Ends;
    }
    standing_step(code, points, readers, spot, walker)
}
