// The branches from each point of a function.

ghost use Rattle.std.specs.Prelude.{◌≡◌, ◌<◌, ◌+◌, ◌^◌, ◌-◌, List, All, length, map, IfOk};
ghost use Rattle.bril_tree.specs.declared.numbered.Instr.{Instr};
ghost use Rattle.bril_tree.specs.Edge.{jump, abort, onward, action_branches, item_branches};
ghost use Rattle.bril_tree.specs.Labels.{IsLabelTable};
ghost use Rattle.flow_graph.specs.Branches.{branch_of, branches_of, visiting, label_count, HasLabels, AreBranchRows};

use bril_tree::numbered::Instr;
use bril_tree::operation::Op;
use std::alloc::{AllocError, Global};

/// A branch from the point of an item to a point at which control can go on, and whether it is the abort of a guard.
#[derive(Clone, Copy, Drop)]
pub struct Branch {
    pub from: u32,
    pub to: u32,
    pub aborts: bool,
}

/// The branches from a point: none from a `ret` and from the function's end; the next point before a label, and of two
/// labels the first one first.
#[derive(Clone, Copy, Drop)]
pub enum Branches {
    Nowhere,
    Single(Branch),
    Either(Branch, Branch),
}

// The branches from each point, the function's end last. `points` has the point of each label.
pub fn all_branches(
    alloc: Global,
    code: &[Instr],
    points: &[u32],
) -> Result<Vec<Branches>, AllocError>
    requires placed { IsLabelTable code.now points.now }
    requires labelled { All (HasLabels (length points.now)) code.now }
    requires few { length code.now < 2 ^ 32 - 1 }
    ensures { IfOk result (λ rows. AreBranchRows code.now rows.items) }
{
    let mut rows = Vec::new(alloc);
    for (point, item) in code.iter().enumerate() {
        rows.push(branches_of(points, item, point as u32))?;
    }
    rows.push(Branches::Nowhere)?;
    Ok(rows)
}

/// The branches from an item at a point of a function, to each point to which control can go from there. `points` has the
/// point of each of the function's labels, as `Func::label_points` gives them. Takes no memory.
pub fn branches_of(points: &[u32], item: &Instr, point: u32) -> Branches
    requires labelled { HasLabels (length points.now) item.now }
    requires few { point + 1 < 2 ^ 32 }
    ensures { (code : List Instr) → IsLabelTable code points.now → branches_of result ≡ item_branches code point item.now }
{
    match item {
        Instr::Act { op, labels, .. } => branches_of_action(points, *op, labels.as_slice(), point),
        _ => Branches::Single(next(point)),
    }
}

// The branches from an operation with these labels at a point.
fn branches_of_action(points: &[u32], op: Op, labels: &[u32], point: u32) -> Branches
    requires counted { label_count op ≡ length labels.now }
    requires known { All (λ l. l < length points.now) labels.now }
    requires few { point + 1 < 2 ^ 32 }
    ensures { (code : List Instr) → IsLabelTable code points.now → branches_of result ≡ action_branches code point op labels.now }
{
    match op {
        Op::Jmp => Branches::Single(jump_to(points, point, labels[0])),
        Op::Br => Branches::Either(
            jump_to(points, point, labels[0]),
            jump_to(points, point, labels[1]),
        ),
        Op::Ret => Branches::Nowhere,
        Op::Guard => Branches::Either(next(point), abort_to(points, point, labels[0])),
        _ => Branches::Single(next(point)),
    }
}

// The branch to the next point.
fn next(point: u32) -> Branch
    requires { point + 1 < 2 ^ 32 }
    ensures { branch_of result ≡ onward point }
{
    Branch {
        from: point,
        to: point + 1,
        aborts: false,
    }
}

// The branch to a label.
fn jump_to(points: &[u32], point: u32, label: u32) -> Branch
    requires { label < length points.now }
    ensures { (code : List Instr) → IsLabelTable code points.now → branch_of result ≡ jump code point label }
{
    Branch {
        from: point,
        to: points[label as usize],
        aborts: false,
    }
}

// The abort of a guard, to its label.
fn abort_to(points: &[u32], point: u32, label: u32) -> Branch
    requires { label < length points.now }
    ensures { (code : List Instr) → IsLabelTable code points.now → branch_of result ≡ abort code point label }
{
    Branch {
        from: point,
        to: points[label as usize],
        aborts: true,
    }
}
