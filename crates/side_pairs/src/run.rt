// Where a run begins.

ghost use Rattle.std.specs.Prelude.{◌≡◌, ◌<◌, ◌-◌, ◌+◌, ◌^◌, ◌↔◌, ℕ, suc, IsTrue, MatchOption, length};
ghost use Rattle.bril_tree.specs.Walk.{IsReached};
ghost use Rattle.flow_graph.specs.Graph.{IsGraphOf};
ghost use Rattle.side_pairs.specs.Runs.{HasRun, HasSize, IsAway, IsBail, IsFirstBail, IsOpening, NamesAll, NamesOnly};
ghost use Rattle.side_pairs.specs.Tables.{IsPointTable};

use crate::items::{Place, is_guard_at, is_speculate_at, leads_away_at, only_label_at, place_at};
use crate::labels::label_point;
use bril_tree::numbered::Instr;
use flow_graph::Graph;

// The most items between a `speculate` and its `commit`.
const MOST_ITEMS: u32 = 512;

// A run: its `speculate` is at `start`, `size` items follow, and then its `commit`; its guards name the label `bail`.
#[derive(Clone, Copy, Drop)]
pub(crate) struct Run {
    pub start: u32,
    pub size: u32,
    pub bail: u32,
}

// The point of an item behind a `speculate`.
fn behind(start: u32, place: u32) -> u32
    requires { start + place < 2 ^ 32 - 1 }
    ensures { result ≡ suc (start + place) }
{
    start + place + 1
}

// How many items stand between the `speculate` at a point and its `commit`; none where they are too many, or one breaks the run.
fn run_size(code: &[Instr], start: u32) -> Option<u32>
    requires few { length code.now < 2 ^ 32 - 1 }
    requires inside { start < length code.now }
    ensures { HasSize code.now start result }
{
    for size in 0..MOST_ITEMS + 1 {
        match place_at(code, behind(start, size)) {
            Place::Within => {}
            Place::Commits => return Some(size),
            Place::Breaks => return None,
        }
    }
    None
}

// The only label of the first guard among so many items behind a point.
fn first_bail(code: &[Instr], start: u32, size: u32) -> Option<u32>
    requires { start + size < 2 ^ 32 - 1 }
    ensures { MatchOption result ((bail : ℕ) → IsBail code.now start size bail → ⊥) (IsFirstBail code.now start size) }
{
    for place in 0..size {
        let point = behind(start, place);
        if is_guard_at(code, point) {
            return only_label_at(code, point);
        }
    }
    None
}

// Whether the item at a point names no label but this one, where it is a guard.
fn names_only(code: &[Instr], point: u32, bail: u32) -> bool
    ensures { IsTrue result ↔ NamesOnly code.now point bail }
{
    !is_guard_at(code, point) || only_label_at(code, point) == Some(bail)
}

// Whether all guards among so many items behind a point name this label.
fn names_all(code: &[Instr], start: u32, size: u32, bail: u32) -> bool
    requires { start + size < 2 ^ 32 - 1 }
    ensures { IsTrue result ↔ NamesAll code.now start size bail }
{
    for place in 0..size {
        if !names_only(code, behind(start, place), bail) {
            return false;
        }
    }
    true
}

// The label that all guards among so many items behind a point name; none where there is no guard, or they name others.
fn run_bail(code: &[Instr], start: u32, size: u32) -> Option<u32>
    requires { start + size < 2 ^ 32 - 1 }
    ensures { MatchOption result ((bail : ℕ) → IsBail code.now start size bail → ⊥) (IsBail code.now start size) }
{
    let bail = first_bail(code, start, size)?;
    if names_all(code, start, size, bail) {
        Some(bail)
    } else {
        None
    }
}

// Whether control leads away from the item just before the label.
fn is_away(code: &[Instr], points: &[u32], label: u32) -> bool
    requires points { IsPointTable code.now points.now }
    requires few { length code.now < 2 ^ 32 - 1 }
    ensures { IsTrue result ↔ IsAway code.now label }
{
    let point = label_point(code, points, label);
    point > 0 && leads_away_at(code, point - 1)
}

// The run that begins at a point where a `speculate` stands that is reached.
fn run_behind(code: &[Instr], points: &[u32], start: u32) -> Option<Run>
    requires points { IsPointTable code.now points.now }
    requires few { length code.now < 2 ^ 32 - 1 }
    requires inside { start < length code.now }
    requires opens { IsOpening code.now start }
    requires reached { IsReached code.now start }
    ensures { HasRun code.now start result }
{
    let size = run_size(code, start)?;
    let bail = run_bail(code, start, size)?;
    if is_away(code, points, bail) {
        Some(Run { start, size, bail })
    } else {
        None
    }
}

// The run that begins at a point, where one does. `points` has the point of each label. Takes no memory.
pub(crate) fn run_at(code: &[Instr], points: &[u32], graph: &Graph, start: u32) -> Option<Run>
    requires points { IsPointTable code.now points.now }
    requires graph { IsGraphOf code.now graph.now }
    requires few { length code.now < 2 ^ 32 - 1 }
    requires inside { start < length code.now }
    ensures { HasRun code.now start result }
{
    if !is_speculate_at(code, start) || !graph.reach(start) {
        return None;
    }
    run_behind(code, points, start)
}
