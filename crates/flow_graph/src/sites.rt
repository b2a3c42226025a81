// Where the open sites fail.

ghost use Rattle.std.specs.Prelude.{◌≡◌, ◌↔◌, ◌<◌, ◌^◌, ◌-◌, IsTrue, IfOk, IfErr, MatchOption, length, slice_get, Some};
ghost use Rattle.bril_tree.specs.Sites.{AreSitesSound, needs_site};
ghost use Rattle.flow_graph.specs.Graph.{IsLeastFailing};
ghost use Rattle.flow_graph.specs.Faults.{IsLeastOf, lesser, Lacks, Brings, FailsAhead, FailsFrom};
ghost use Rattle.flow_graph.specs.Visits.{AreVisits};
ghost use Rattle.flow_graph.specs.Branches.{AreBranchRows, branch_of};

use crate::branches::{Branch, Branches};
use crate::visits::{MOST_SITES, Visit, visit_at, visit_behind};
use bril_tree::numbered::Instr;
use bril_tree::operation::Op;

/// The least point at which the open sites of a function fail.
#[derive(Clone, Copy, Drop)]
pub struct Failing {
    pub point: u32,
}

/// Whether the open sites fail at no point; an error has the least point at which they do. `rows` are the branches from each
/// point, and `visits` what the first walk brings to each. Takes no memory.
pub fn judged(code: &[Instr], rows: &[Branches], visits: &[Option<Visit>]) -> Result<(), Failing>
    requires rows { AreBranchRows code.now rows.now }
    requires visits { AreVisits code.now visits.now }
    requires few { length code.now < 2 ^ 32 - 1 }
    ensures ok { IfOk result (λ _. AreSitesSound code.now) }
    ensures err { IfErr result (λ failing. IsLeastFailing code.now failing.point) }
{
    match least_failing(code, rows, visits) {
        None => Ok(()),
        Some(point) => Err(Failing { point }),
    }
}

// The least point at which the open sites fail.
fn least_failing(code: &[Instr], rows: &[Branches], visits: &[Option<Visit>]) -> Option<u32>
    requires rows { AreBranchRows code.now rows.now }
    requires visits { AreVisits code.now visits.now }
    requires few { length code.now < 2 ^ 32 - 1 }
    ensures { MatchOption result (AreSitesSound code.now) (IsLeastFailing code.now) }
{
    let mut least = None;
    for point in 0..rows.len() {
        least = lesser(
            least,
            failing_at(code, rows[point], visits, point as u32, visits[point]),
        );
    }
    least
}

// The least of the failing points that show at a point: itself, or one that a branch from it brings other sites to.
fn failing_at(
    code: &[Instr],
    row: Branches,
    visits: &[Option<Visit>],
    point: u32,
    kept: Option<Visit>,
) -> Option<u32>
    ensures { IsLeastOf (FailsFrom code.now row visits.now point (Some kept)) result }
{
    match kept {
        None => None,
        Some(visit) => lesser(
            lacking(code, visit, point),
            failing_ahead(code, row, visits),
        ),
    }
}

// The point, where it lacks a site or has too many.
fn lacking(code: &[Instr], visit: Visit, point: u32) -> Option<u32>
    ensures { IsLeastOf (λ p. (point ≡ p) × Lacks code.now visit point) result }
{
    if lacks(code, visit, point) {
        Some(point)
    } else {
        None
    }
}

// The least of the points to which these branches bring other sites.
fn failing_ahead(code: &[Instr], row: Branches, visits: &[Option<Visit>]) -> Option<u32>
    ensures { IsLeastOf (FailsAhead code.now visits.now row) result }
{
    match row {
        Branches::Nowhere => None,
        Branches::Single(branch) => brought(code, branch, visits),
        Branches::Either(first, second) => lesser(
            brought(code, first, visits),
            brought(code, second, visits),
        ),
    }
}

// The point of a branch that brings other sites to it.
fn brought(code: &[Instr], branch: Branch, visits: &[Option<Visit>]) -> Option<u32>
    ensures { IsLeastOf (Brings code.now visits.now (branch_of branch)) result }
{
    let brings = visit_behind(visits, code, branch).newest;
    let first = visit_at(visits, branch.to).newest;
    if is_same(brings, first) {
        None
    } else {
        Some(branch.to)
    }
}

// Whether two sites are one, or both are missing.
fn is_same(a: Option<u32>, b: Option<u32>) -> bool
    ensures { IsTrue result ↔ (a ≡ b) }
{
    match (a, b) {
        (None, None) => true,
        (Some(x), Some(y)) => x == y,
        _ => false,
    }
}

// Whether too many sites are open at a point, or none where one is needed.
fn lacks(code: &[Instr], visit: Visit, point: u32) -> bool
    ensures { IsTrue result ↔ Lacks code.now visit point }
{
    if visit.count > MOST_SITES {
        return true;
    }
    match visit.newest {
        Some(_) => false,
        None => needs_site(code, point),
    }
}

// Whether the item at the point is a `commit` or a `guard`.
fn needs_site(code: &[Instr], point: u32) -> bool
    ensures { result ≡ needs_site (slice_get code.now point) }
{
    match code.get(point as usize) {
        Some(Instr::Act { op, .. }) => matches!(*op, Op::Commit | Op::Guard),
        _ => false,
    }
}

// The lesser of two points, where both are there.
fn lesser(a: Option<u32>, b: Option<u32>) -> Option<u32>
    ensures { result ≡ lesser a b }
{
    match (a, b) {
        (Some(x), Some(y)) => Some(x.min(y)),
        (None, other) => other,
        (some, None) => some,
    }
}
