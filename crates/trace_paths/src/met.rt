// How a path meets an item.

ghost use Rattle.std.specs.Prelude.{◌≡◌, ◌<◌, ℕ, All, Some, length, slice_index};
ghost use Rattle.flow_graph.specs.Branches.{HasLabels, label_count};
ghost use Rattle.trace_paths.specs.Meetings.{meeting_of};
ghost use Rattle.trace_paths.specs.Path.{item_met, operation_met};
ghost use Rattle.trace_paths.specs.Walked.{AreKnown};

use bril_tree::numbered::Instr;
use bril_tree::operation::Op;

/// How the path of an entry meets an item: it walks over it to the next point, or to a label; it lays it and goes to the
/// next point, or, at a `br`, to one of two labels; or it stops before it. Labels are numbers of the item's function.
#[derive(Clone, Copy, Drop)]
pub enum Meeting {
    Over,
    To(u32),
    Lays,
    Turns(u32, u32),
    Stops,
}

/// How the path of an entry meets the item. A label that the item lacks counts as 0. Takes no memory.
pub fn item_meeting(item: &Instr) -> Meeting
    ensures met { meeting_of result ≡ item_met (Some item.now) }
    // The labels are of those that the item goes to.
    ensures known { (many : ℕ) → HasLabels many item.now → AreKnown many result }
{
    match item {
        Instr::Label(_) => Meeting::Over,
        Instr::Const { .. } => Meeting::Lays,
        Instr::Act { op, labels, .. } => operation_meeting(*op, labels.as_slice()),
    }
}

// How it meets an operation with these labels.
fn operation_meeting(op: Op, labels: &[u32]) -> Meeting
    ensures met { meeting_of result ≡ operation_met op labels.now }
    ensures known { (many : ℕ) → label_count op ≡ length labels.now → All (λ l. l < many) labels.now → AreKnown many result }
{
    match op {
        Op::Nop => Meeting::Over,
        Op::Jmp => Meeting::To(label_at(labels, 0)),
        Op::Br => Meeting::Turns(label_at(labels, 0), label_at(labels, 1)),
        Op::Print
        | Op::Store
        | Op::Alloc
        | Op::Free
        | Op::Call
        | Op::Ret
        | Op::Speculate
        | Op::Commit
        | Op::Guard => Meeting::Stops,
        _ => Meeting::Lays,
    }
}

// The label at a place.
fn label_at(labels: &[u32], place: usize) -> u32
    ensures { result ≡ slice_index labels.now place }
{
    match labels.get(place) {
        Some(label) => *label,
        None => 0,
    }
}
