// The walk along the path of an entry.

ghost use Rattle.std.specs.Prelude.{◌≡◌, ℕ, ◌<◌, ◌≤◌, ◌^◌, ◌-◌, ◌+◌, Bool, List, All, drop, length, map, slice_get, suc, IfOk};
ghost use Rattle.bril_tree.specs.Labels.{IsLabelTable};
ghost use Rattle.flow_graph.specs.Branches.{HasLabels};
ghost use Rattle.trace_paths.specs.Path as path;
ghost use Rattle.trace_paths.specs.Path.{path_from, path_by, item_met};
ghost use Rattle.trace_paths.specs.Walked.{leg_of, turned, IsInside, HasRoom};

use crate::met::{Meeting, item_meeting};
use bril_tree::numbered::Instr;
use std::alloc::{AllocError, Global};

/// An item that a path lays, by its point: a `br` with its choice, true for its first label, or any other.
#[derive(Clone, Copy, Drop)]
pub enum Leg {
    Straight(u32),
    Choice(u32, bool),
}

// What a path does at a point, and where it goes on.
#[derive(Clone, Copy, Drop)]
enum Turn {
    Stop,
    Walk(u32),
    Lay(u32),
    Choose(u32, bool),
}

/// The items that a path lays, in order, and the point before which it stops.
#[derive(Drop)]
pub struct Path {
    pub legs: Vec<Leg>,
    pub stop: u32,
}

/// The path from the label at `own`, over at most so many items more, of which it lays at most 256. `points` has the point
/// of each label.
///
/// The path of an entry is that over 1,023 items. An error means out of memory. Takes time in proportion to the path.
pub fn path_within(
    alloc: Global,
    code: &[Instr],
    points: &[u32],
    own: u32,
    most: u32,
    choices: &[bool],
) -> Result<Path, AllocError>
    requires placed { IsLabelTable code.now points.now }
    requires labelled { All (HasLabels (length points.now)) code.now }
    requires few { length code.now < 2 ^ 32 - 1 }
    requires inside { own < length code.now }
    ensures legs { IfOk result (λ found. map leg_of found.legs.items ≡ (path_from code.now own most 256 choices.now (suc own)).legs) }
    ensures stop { IfOk result (λ found. found.stop ≡ (path_from code.now own most 256 choices.now (suc own)).stop) }
    ensures within { IfOk result (λ found. found.stop ≤ length code.now) }
{
    let mut legs = Vec::new(alloc);
    let mut at = own + 1;
    let mut used: usize = 0;
    let mut fuel: u32 = most;
    let mut room: u32 = 256;
    'items: while fuel > 0 && at != own {
        fuel -= 1;
        match turn_at(code, points, room, choices, used, at) {
            Turn::Stop => return Ok(Path { legs, stop: at }),
            Turn::Walk(to) => at = to,
            Turn::Lay(to) => {
                legs.push(Leg::Straight(at))?;
                room -= 1;
                at = to;
            }
            Turn::Choose(to, choice) => {
                legs.push(Leg::Choice(at, choice))?;
                room -= 1;
                used += 1;
                at = to;
            }
        }
    }
    Ok(Path { legs, stop: at })
}

// What a path does at a point, where so many items may still be laid and so many choices are used.
fn turn_at(
    code: &[Instr],
    points: &[u32],
    room: u32,
    choices: &[bool],
    used: usize,
    at: u32,
) -> Turn
    requires placed { IsLabelTable code.now points.now }
    requires labelled { All (HasLabels (length points.now)) code.now }
    requires few { length code.now < 2 ^ 32 - 1 }
    ensures path { (next : ℕ → List Bool → ℕ → path.Path) → path_by code.now next (item_met (slice_get code.now at)) room (drop used choices.now) at ≡ turned next result room (drop used choices.now) at }
    ensures inside { IsInside (length code.now) result }
    ensures room { HasRoom room (drop used choices.now) result }
{
    let Some(item) = code.get(at as usize) else {
        return Turn::Stop;
    };
    match item_meeting(item) {
        Meeting::Over => Turn::Walk(at + 1),
        Meeting::To(label) => Turn::Walk(points[label as usize]),
        Meeting::Lays if room > 0 => Turn::Lay(at + 1),
        Meeting::Turns(first, second) if room > 0 && used < choices.len() => {
            let choice = choices[used];
            Turn::Choose(
                points[chosen(points, choice, first, second) as usize],
                choice,
            )
        }
        _ => Turn::Stop,
    }
}

// The label of a choice.
fn chosen(points: &[u32], choice: bool, first: u32, second: u32) -> u32
    requires first { first < length points.now }
    requires second { second < length points.now }
    ensures is { result ≡ path.chosen choice first second }
    ensures known { result < length points.now }
{
    match choice {
        true => first,
        false => second,
    }
}
