// What is kept of the first walk to a point: its open sites.

ghost use Rattle.std.specs.Prelude.{◌≡◌, ◌<◌, Some};
ghost use Rattle.bril_tree.specs.Sites.{item_change};
ghost use Rattle.flow_graph.specs.Visits.{visit_at, visit_behind, visit_changed, closed, opened};
ghost use Rattle.flow_graph.specs.Branches.{branch_of};

use crate::branches::Branch;
use bril_tree::numbered::Instr;
use bril_tree::operation::Op;

// The most sites that may be open.
pub const MOST_SITES: u8 = 8;

/// The open sites of the first walk to a point: the newest, and how many they are, where 9 stands for all greater
/// numbers. The others are those at the newest.
#[derive(Clone, Copy, Drop)]
pub struct Visit {
    pub newest: Option<u32>,
    pub count: u8,
}

// What is kept for a point, and no open site where nothing is.
pub fn visit_at(visits: &[Option<Visit>], point: u32) -> Visit
    ensures { result ≡ visit_at visits.now point }
{
    match visits.get(point as usize) {
        Some(Some(visit)) => *visit,
        _ => Visit {
            newest: None,
            count: 0,
        },
    }
}

// What a branch brings to its point.
pub fn visit_behind(visits: &[Option<Visit>], code: &[Instr], branch: Branch) -> Visit
    ensures { result ≡ visit_behind code.now visits.now (branch_of branch) }
{
    let visit = visit_at(visits, branch.from);
    match code.get(branch.from as usize) {
        None => visit,
        Some(item) => visit_changed(visits, item, branch, visit),
    }
}

// What is kept behind an item: a `speculate` opens a site; a `commit`, and the abort of a guard, close the newest.
fn visit_changed(visits: &[Option<Visit>], item: &Instr, branch: Branch, visit: Visit) -> Visit
    ensures { result ≡ visit_changed visits.now (item_change (Some item.now) branch.aborts) branch.from visit }
{
    match item {
        Instr::Act {
            op: Op::Speculate,
            ..
        } => opened(branch.from, visit),
        Instr::Act { op: Op::Commit, .. } => closed(visits, visit),
        Instr::Act { op: Op::Guard, .. } => {
            if branch.aborts {
                closed(visits, visit)
            } else {
                visit
            }
        }
        _ => visit,
    }
}

// One open site more.
fn opened(site: u32, visit: Visit) -> Visit
    ensures { result ≡ opened site visit }
{
    let count = if visit.count < MOST_SITES {
        visit.count + 1
    } else {
        MOST_SITES + 1
    };
    Visit {
        newest: Some(site),
        count,
    }
}

// Without the newest open site.
fn closed(visits: &[Option<Visit>], visit: Visit) -> Visit
    ensures { result ≡ closed visits.now visit.newest visit }
{
    match visit.newest {
        None => visit,
        Some(site) => visit_at(visits, site),
    }
}
