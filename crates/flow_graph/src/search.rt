// The search for the first walk to each point.

ghost use Rattle.std.specs.Prelude.{◌≡◌, ◌<◌, [], ◌∷◌, ◌++◌, None, Some, length, replicate, slice_get, slice_set, IfOk, OnOk};
ghost use Rattle.flow_graph.specs.Visits.{AreVisits, none_open, visit_behind};
ghost use Rattle.flow_graph.specs.Branches.{AreBranchRows, branch_of, visiting};
ghost use Rattle.flow_graph.specs.declared.visits.Visit.{Visit};
ghost use Rattle.flow_graph.specs.declared.branches.Branches.{Branches};

use crate::branches::{Branch, Branches};
use crate::visits::{Visit, visit_behind};
use bril_tree::numbered::Instr;
use std::alloc::{AllocError, Global};
use std::collections::VecDeque;

// What the first walk to each point brings. The branches wait in the order of their walks, so the first that leads to a
// point is the last of its first walk.
pub fn first_visits(
    alloc: Global,
    code: &[Instr],
    rows: &[Branches],
) -> Result<Vec<Option<Visit>>, AllocError>
    requires { AreBranchRows code.now rows.now }
    ensures { IfOk result (λ visits. AreVisits code.now visits.items) }
{
    let mut visits = unvisited(alloc, rows.len())?;
    let mut waiting = VecDeque::new(alloc);
    let start = Visit {
        newest: None,
        count: 0,
    };
    enter(&mut visits, &mut waiting, rows, 0, start)?;
    'branches: while let Some(branch) = waiting.pop_front() {
        take(&mut visits, &mut waiting, code, rows, branch)?;
    }
    Ok(visits)
}

// So many points that no walk was found to.
fn unvisited(alloc: Global, points: usize) -> Result<Vec<Option<Visit>>, AllocError>
    ensures { IfOk result (λ visits. visits.items ≡ replicate points None) }
{
    let mut visits = Vec::new(alloc);
    for _point in 0..points {
        visits.push(None)?;
    }
    Ok(visits)
}

// Keeps what the first walk to the point of a branch brings, where the branch is the last of that walk.
fn take(
    visits: &mut Vec<Option<Visit>>,
    waiting: &mut VecDeque<Branch>,
    code: &[Instr],
    rows: &[Branches],
    branch: Branch,
) -> Result<(), AllocError>
    requires inside { branch.to < length visits.old.items }
    requires rows { length rows.now ≡ length visits.old.items }
    ensures passed { OnOk result ((visit : Visit) → slice_get visits.old.items branch.to ≡ Some (Some visit)
        → (visits.new.items ≡ visits.old.items) × (waiting.new.items ≡ waiting.old.items)) }
    ensures entered { OnOk result ((row : Branches) → slice_get visits.old.items branch.to ≡ Some None → slice_get rows.now branch.to ≡ Some row
        → (visits.new.items ≡ slice_set visits.old.items branch.to (Some (visit_behind code.now visits.old.items (branch_of branch))))
        × (waiting.new.items ≡ waiting.old.items ++ visiting row)) }
{
    match visits[branch.to as usize] {
        Some(_) => Ok(()),
        None => {
            let visit = visit_behind(visits.as_slice(), code, branch);
            enter(visits, waiting, rows, branch.to, visit)
        }
    }
}

// Keeps what the first walk to a point brings; its branches wait behind all others.
fn enter(
    visits: &mut Vec<Option<Visit>>,
    waiting: &mut VecDeque<Branch>,
    rows: &[Branches],
    point: u32,
    visit: Visit,
) -> Result<(), AllocError>
    requires inside { point < length visits.old.items }
    requires rows { length rows.now ≡ length visits.old.items }
    ensures kept { OnOk result (visits.new.items ≡ slice_set visits.old.items point (Some visit)) }
    ensures waits { OnOk result ((row : Branches) → slice_get rows.now point ≡ Some row → waiting.new.items ≡ waiting.old.items ++ visiting row) }
{
    visits[point as usize] = Some(visit);
    wait(waiting, rows[point as usize])
}

// Adds branches at the end, the one to the lesser point first.
fn wait(waiting: &mut VecDeque<Branch>, branches: Branches) -> Result<(), AllocError>
    ensures { OnOk result (waiting.new.items ≡ waiting.old.items ++ visiting branches) }
{
    match branches {
        Branches::Nowhere => Ok(()),
        Branches::Single(branch) => {
            waiting.push_back(branch)?;
            Ok(())
        }
        Branches::Either(first, second) => {
            if second.to < first.to {
                wait_both(waiting, second, first)
            } else {
                wait_both(waiting, first, second)
            }
        }
    }
}

// Adds two branches at the end.
fn wait_both(
    waiting: &mut VecDeque<Branch>,
    first: Branch,
    second: Branch,
) -> Result<(), AllocError>
    ensures { OnOk result (waiting.new.items ≡ waiting.old.items ++ first ∷ second ∷ []) }
{
    waiting.push_back(first)?;
    waiting.push_back(second)?;
    Ok(())
}
