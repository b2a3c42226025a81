// How an item of a run goes with the item at which the walk stands.

ghost use Rattle.std.specs.Prelude.{◌≡◌, ◌<◌, ◌+◌, ◌^◌, ◌∷◌, [], ◌↔◌, ℕ, Some, None, IsTrue, MatchOption, slice_get};
ghost use Rattle.bril_tree.specs.declared.numbered.Instr.TheVariants as instr;
ghost use Rattle.bril_tree.specs.declared.operation.Op.TheVariants as op;
ghost use Rattle.flow_graph.specs.Reads.{reads_from};
ghost use Rattle.side_laws.specs.Paired.{IsGuardOn, IsKept};
ghost use Rattle.side_pairs.specs.Meetings.{HasCondition, HasTurn, IsKeeping, IsMeeting, IsNegation, IsTurned};
ghost use Rattle.side_pairs.specs.Readers.{AreReaders};

use crate::equal::same_item;
use crate::items::{is_guard, only_one};
use crate::readers::{Readers, is_alone};
use bril_tree::numbered::Instr;
use bril_tree::operation::Op;

// A branch: its condition, and its labels.
#[derive(Clone, Copy, Drop)]
pub(crate) struct Turn {
    pub condition: u32,
    pub on: u32,
    pub off: u32,
}

// How an item goes with the item at the walk: it is paired as `not` or as a guard, with the labels of the branch, or it is kept, or
// pairing ends.
#[derive(Clone, Copy, Drop)]
pub(crate) enum Meeting {
    Inverts(u32, u32),
    Pairs(u32, u32),
    Keeps,
    Ends,
}

// The only two of a list.
fn only_two(numbers: &[u32]) -> Option<(u32, u32)>
    ensures { MatchOption result ((first second : ℕ) → numbers.now ≡ first ∷ second ∷ [] → ⊥) (λ two. numbers.now ≡ two.0 ∷ two.1 ∷ []) }
{
    match numbers {
        [first, second] => Some((*first, *second)),
        _ => None,
    }
}

// The branch of these arguments, functions and labels.
fn turn_of_parts(args: &[u32], funcs: &[u32], labels: &[u32]) -> Option<Turn>
    ensures { HasTurn (Some (instr.Act None None op.Br args.now funcs.now labels.now)) result }
{
    if !funcs.is_empty() {
        return None;
    }
    let condition = only_one(args)?;
    let (on, off) = only_two(labels)?;
    Some(Turn { condition, on, off })
}

// The branch that an item is, where it is one.
fn turn_of(item: &Instr) -> Option<Turn>
    ensures { HasTurn (Some item.now) result }
{
    match item {
        Instr::Act {
            dest: None,
            ty: None,
            op: Op::Br,
            args,
            funcs,
            labels,
        } => turn_of_parts(args.as_slice(), funcs.as_slice(), labels.as_slice()),
        _ => None,
    }
}

// The branch at a point, where one stands there.
fn turn_at(code: &[Instr], point: u32) -> Option<Turn>
    ensures { HasTurn (slice_get code.now point) result }
{
    match code.get(point as usize) {
        None => None,
        Some(item) => turn_of(item),
    }
}

// The condition of a guard with these arguments, functions and labels.
fn condition_of_parts(args: &[u32], funcs: &[u32], labels: &[u32]) -> Option<u32>
    ensures { HasCondition (Some (instr.Act None None op.Guard args.now funcs.now labels.now)) result }
{
    if !funcs.is_empty() {
        return None;
    }
    let condition = only_one(args)?;
    let _label = only_one(labels)?;
    Some(condition)
}

// The condition of the guard that an item is, where it is one.
fn condition_of(item: &Instr) -> Option<u32>
    ensures { HasCondition (Some item.now) result }
{
    match item {
        Instr::Act {
            dest: None,
            ty: None,
            op: Op::Guard,
            args,
            funcs,
            labels,
        } => condition_of_parts(args.as_slice(), funcs.as_slice(), labels.as_slice()),
        _ => None,
    }
}

// The condition of the guard at a point, where one stands there.
fn condition_at(code: &[Instr], point: u32) -> Option<u32>
    ensures { HasCondition (slice_get code.now point) result }
{
    match code.get(point as usize) {
        None => None,
        Some(item) => condition_of(item),
    }
}

// Whether a guard on the variable stands at a point.
fn is_guard_on_at(code: &[Instr], point: u32, condition: u32) -> bool
    ensures { IsTrue result ↔ IsGuardOn (slice_get code.now point) condition }
{
    match condition_at(code, point) {
        None => false,
        Some(other) => other == condition,
    }
}

// The destination of an item that is the `not` of the variable.
fn negation_of(item: &Instr, condition: u32) -> Option<u32>
    ensures { MatchOption result ((n : ℕ) → IsNegation (Some item.now) n condition → ⊥) (λ n. IsNegation (Some item.now) n condition) }
{
    match item {
        Instr::Act {
            dest: Some(dest),
            op: Op::Not,
            args,
            funcs,
            labels,
            ..
        } => {
            if funcs.as_slice().is_empty()
                && labels.as_slice().is_empty()
                && only_one(args.as_slice()) == Some(condition)
            {
                Some(*dest)
            } else {
                None
            }
        }
        _ => None,
    }
}

// The destination of the item at a point, where that is the `not` of the variable.
fn negation_at(code: &[Instr], point: u32, condition: u32) -> Option<u32>
    ensures { MatchOption result ((n : ℕ) → IsNegation (slice_get code.now point) n condition → ⊥) (λ n. IsNegation (slice_get code.now point) n condition) }
{
    match code.get(point as usize) {
        None => None,
        Some(item) => negation_of(item, condition),
    }
}

// Whether the item is the `not` of the variable, for the guard just behind it alone.
fn inverts(code: &[Instr], readers: &[Readers], item: u32, condition: u32) -> bool
    requires readers { AreReaders (reads_from 0 code.now) readers.now }
    requires few { item + 1 < 2 ^ 32 }
    ensures { IsTrue result ↔ IsTurned code.now item condition }
{
    let Some(n) = negation_at(code, item, condition) else {
        return false;
    };
    if n == condition {
        return false;
    }
    if !is_guard_on_at(code, item + 1, n) {
        return false;
    }
    is_alone(readers, n, item + 1)
}

// Whether the item is kept: it is no guard, and equals the item at the walk.
fn is_kept(code: &[Instr], item: u32, at: u32) -> bool
    ensures { IsTrue result ↔ IsKept code.now item at }
{
    let Some(here) = code.get(item as usize) else {
        return false;
    };
    let Some(there) = code.get(at as usize) else {
        return false;
    };
    !is_guard(here) && same_item(here, there)
}

// The item is kept, or pairing ends.
fn kept_or_ends(code: &[Instr], item: u32, at: u32) -> Meeting
    ensures { IsKeeping code.now item at result }
{
    if is_kept(code, item, at) {
        Meeting::Keeps
    } else {
        Meeting::Ends
    }
}

// How an item goes with the item at the walk. Takes no memory.
pub(crate) fn met(code: &[Instr], readers: &[Readers], item: u32, at: u32) -> Meeting
    requires readers { AreReaders (reads_from 0 code.now) readers.now }
    requires few { item + 1 < 2 ^ 32 }
    ensures { IsMeeting code.now item at result }
{
    let Some(turn) = turn_at(code, at) else {
        return kept_or_ends(code, item, at);
    };
    if inverts(code, readers, item, turn.condition) {
        return Meeting::Inverts(turn.on, turn.off);
    }
    if is_guard_on_at(code, item, turn.condition) {
        return Meeting::Pairs(turn.on, turn.off);
    }
    kept_or_ends(code, item, at)
}
