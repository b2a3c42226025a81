// The walk from a label.

ghost use Rattle.std.specs.Prelude.{◌≡◌, ◌<◌, ◌-◌, ◌^◌, ℕ, Some, length, slice_get, slice_index};
ghost use Rattle.side_laws.specs.Paired as paired;
ghost use Rattle.side_laws.specs.Paired.{item_passing, operation_passing, passing, settled};
ghost use Rattle.side_pairs.specs.Tables.{IsPointTable};
ghost use Rattle.side_pairs.specs.Walks.{moved, passing_of, walker_of};

use crate::labels::label_point;
use bril_tree::numbered::Instr;
use bril_tree::operation::Op;

// Where a walk is: `left` items may still be met.
#[derive(Clone, Copy, Drop)]
pub(crate) struct Walker {
    pub left: u32,
    pub point: u32,
}

// How a walk meets an item: it passes over it, to the next point or to a label, or stands at it.
#[derive(Clone, Copy, Drop)]
pub(crate) enum Passing {
    Over,
    To(u32),
    Stands,
}

// The first label.
fn first_label(labels: &[u32]) -> u32
    ensures { result ≡ slice_index labels.now 0 }
{
    match labels.get(0) {
        Some(label) => *label,
        None => 0,
    }
}

// How a walk meets an operation with these labels.
fn operation_passing(op: Op, labels: &[u32]) -> Passing
    ensures { passing_of result ≡ operation_passing op labels.now }
{
    match op {
        Op::Nop => Passing::Over,
        Op::Jmp => Passing::To(first_label(labels)),
        _ => Passing::Stands,
    }
}

// How a walk meets an item.
fn item_passing(item: &Instr) -> Passing
    ensures { passing_of result ≡ item_passing (Some item.now) }
{
    match item {
        Instr::Label(_) => Passing::Over,
        Instr::Const { .. } => Passing::Stands,
        Instr::Act { op, labels, .. } => operation_passing(*op, labels.as_slice()),
    }
}

// The point to which a walk goes on from a point; none where it stands.
fn passed(code: &[Instr], points: &[u32], point: u32) -> Option<u32>
    requires points { IsPointTable code.now points.now }
    requires few { length code.now < 2 ^ 32 - 1 }
    ensures { (next : ℕ → paired.Walker) (left : ℕ) → passing code.now next left point (item_passing (slice_get code.now point)) ≡ moved next left point result }
{
    let Some(item) = code.get(point as usize) else {
        return None;
    };
    match item_passing(item) {
        Passing::Over => Some(point + 1),
        Passing::To(label) => Some(label_point(code, points, label)),
        Passing::Stands => None,
    }
}

// Where a walk comes to stand. `points` has the point of each label. Takes no memory.
pub(crate) fn settled(code: &[Instr], points: &[u32], walker: Walker) -> Walker
    requires points { IsPointTable code.now points.now }
    requires few { length code.now < 2 ^ 32 - 1 }
    ensures { walker_of result ≡ settled code.now walker.left walker.point }
{
    let mut left = walker.left;
    let mut point = walker.point;
    'walk: while left > 0 {
        match passed(code, points, point) {
            None => return Walker { left, point },
            Some(next) => point = next,
        }
        left -= 1;
    }
    Walker { left: 0, point }
}
