// A sweep over the items, the last one first, that finds most of what is dead: all but what only branches tell. It knows of
// each location the next item that reads it, and the next that assigns it.
//
// The work list alone would find the same, but with a search for each location that it looks at. The sweep goes over a function once,
// so a long chain of dead items in a straight line takes time in proportion to its length, and little is left for the work list.

ghost use Rattle.std.specs.Prelude.{◌≡◌, ◌≢◌, ◌<◌, ◌+◌, ◌^◌, ◌-◌, ◌∷◌, [], All, true, false, None, Some, is_some, length, map, slice_get, if◌then◌else◌, IfOk, OnOk, IfSome};
ghost use Rattle.std.specs.Option.{option_to_list};
ghost use Rattle.bril_tree.specs.Edge.{Branch};
ghost use Rattle.bril_tree.specs.Labels.{IsLabelTable};
ghost use Rattle.bril_tree.specs.Membership.{In};
ghost use Rattle.bril_tree.specs.Operand.{reads_of};
ghost use Rattle.bril_tree.specs.Shape.{shape_fault_of};
ghost use Rattle.bril_tree.specs.Sites.{Opens, item_change};
ghost use Rattle.flow_graph.specs.Branches.{HasLabels, branches_of};
ghost use Rattle.flow_graph.specs.Location.{number_at, number_of};
ghost use Rattle.dead_code.specs.Removable.{is_computation};
ghost use Rattle.dead_code.specs.Sweep.{AreNoted, IsQuiet, IsSwept};
ghost use Rattle.dead_code.specs.Work.{IsSound, NoneIdle, remaining};

use crate::work::is_computation;
use bril_tree::numbered::Instr;
use bril_tree::numbered_function::Func;
use bril_tree::operation::Op;
use flow_graph::{Branches, assigned_number, branches_of, item_reads};
use std::alloc::{AllocError, Global};

// What is known at a point: the next item that reads each location, the next that assigns it, the next from which branches
// lead elsewhere, and the next from which none leads.
#[derive(Drop)]
struct Sweep {
    dead: Vec<bool>,
    reads: Vec<u32>,
    assigns: Vec<u32>,
    branch: u32,
    end: u32,
}

// Whether the item is a `speculate`.
fn speculates(item: &Instr) -> bool
    ensures { result ≡ false → item_change (Some item.now) false ≢ Opens }
{
    match item {
        Instr::Label(_) => false,
        Instr::Const { .. } => false,
        Instr::Act { op, .. } => *op == Op::Speculate,
    }
}

// Whether one of the branches from an item goes elsewhere than to the next point.
fn goes_elsewhere(branches: Branches, next: u32) -> bool
    ensures { result ≡ false → (branch : Branch) → In branch (branches_of branches) → branch.to ≡ next }
{
    match branches {
        Branches::Nowhere => false,
        Branches::Single(branch) => branch.to != next,
        Branches::Either(first, second) => first.to != next || second.to != next,
    }
}

// Whether branches lead from the item elsewhere than to the next point; an abort leads from the `speculate`.
fn is_branching(item: &Instr, branches: Branches, next: u32) -> bool
    ensures onward { result ≡ false → (branch : Branch) → In branch (branches_of branches) → branch.to ≡ next }
    ensures plain { result ≡ false → item_change (Some item.now) false ≢ Opens }
{
    speculates(item) || goes_elsewhere(branches, next)
}

// Whether there are no branches.
fn are_none(branches: Branches) -> bool
    ensures { result ≡ true → branches_of branches ≡ [] }
{
    match branches {
        Branches::Nowhere => true,
        Branches::Single(_) => false,
        Branches::Either(_, _) => false,
    }
}

// The point, where the test holds.
fn point_if(test: bool, point: u32, before: u32) -> u32
    ensures { result ≡ if test then point else before }
{
    if test { point } else { before }
}

// Marks what is dead by a sweep.
pub(crate) fn swept(
    alloc: Global,
    func: &Func,
    dead: Vec<bool>,
    count: usize,
) -> Result<Vec<bool>, AllocError>
    requires shaped { shape_fault_of (is_some func.now.ret) func.now.code ≡ None }
    requires few { length func.now.code < 2 ^ 32 - 1 }
    requires sound { IsSound func.now.code dead.items }
    requires none { NoneIdle func.now.code dead.items }
    ensures sound { IfOk result (λ dead. IsSound func.now.code dead.items) }
    ensures none { IfOk result (λ dead. NoneIdle func.now.code dead.items) }
{
    let points = func.label_points(alloc)?;
    let mut sweep = Sweep::new(alloc, func, dead, count)?;
    let mut point = func.code.as_slice().len();
    while point > 0 {
        point -= 1;
        sweep.look(alloc, func, points.as_slice(), point as u32)?;
    }
    Ok(sweep.dead)
}

impl Sweep {
    // What is known at the end.
    fn new(alloc: Global, func: &Func, dead: Vec<bool>, count: usize) -> Result<Sweep, AllocError>
        requires few { length func.now.code < 2 ^ 32 - 1 }
        requires long { length dead.items ≡ length func.now.code }
        ensures dead { IfOk result (λ sweep. sweep.dead.items ≡ dead.items) }
        ensures swept { IfOk result (λ sweep. IsSwept func.now.code (remaining func.now.code sweep.dead.items) (length func.now.code) sweep.reads.items sweep.assigns.items sweep.branch sweep.end) }
    {
        let reads = vec![in alloc; u32::MAX; count]?;
        let assigns = vec![in alloc; u32::MAX; count]?;
        Ok(Sweep {
            dead,
            reads,
            assigns,
            branch: u32::MAX,
            end: func.code.as_slice().len() as u32,
        })
    }

    // Whether the next item that has to do with the location assigns it, or the function ends before.
    fn is_quiet(&self, location: u32) -> bool
        ensures { result ≡ true → IsQuiet self.now.reads.items self.now.assigns.items self.now.branch self.now.end location }
    {
        let k = location as usize;
        if k >= self.reads.len() || k >= self.assigns.len() {
            return false;
        }
        let next = self.assigns[k];
        let first = if next < self.end { next } else { self.end };
        first < self.reads[k] && first < self.branch
    }

    // Whether the item only computes what isn't live at the next point.
    fn is_unused(&self, item: &Instr, assigned: Option<u32>) -> bool
        ensures computes { result ≡ true → is_computation item.now ≡ true }
        ensures quiet { result ≡ true → IfSome assigned (IsQuiet self.now.reads.items self.now.assigns.items self.now.branch self.now.end) }
    {
        match assigned {
            None => false,
            Some(location) => is_computation(item) && self.is_quiet(location),
        }
    }

    // Notes the item of a location.
    fn note(list: &mut Vec<u32>, location: u32, point: u32)
        ensures { AreNoted point (location ∷ []) list.old.items list.new.items }
    {
        let k = location as usize;
        if k < list.len() {
            list[k] = point;
        }
    }

    // Notes the item of a location, where there is one.
    fn note_assigned(list: &mut Vec<u32>, location: Option<u32>, point: u32)
        ensures { AreNoted point (option_to_list location) list.old.items list.new.items }
    {
        if let Some(location) = location {
            Sweep::note(list, location, point);
        }
    }

    // Notes what the item reads.
    fn note_reads(&mut self, alloc: Global, item: &Instr, point: u32) -> Result<(), AllocError>
        ensures dead { self.new.dead.items ≡ self.old.dead.items }
        ensures assigns { self.new.assigns.items ≡ self.old.assigns.items }
        ensures branch { self.new.branch ≡ self.old.branch }
        ensures end { self.new.end ≡ self.old.end }
        ensures noted { OnOk result (AreNoted point (map number_of (reads_of item.now)) self.old.reads.items self.new.reads.items) }
    {
        let reads = item_reads(alloc, point, item)?;
        for read in reads.as_slice() {
            Sweep::note(&mut self.reads, read.location, point);
        }
        Ok(())
    }

    // Notes what an item that stays does. `points` has the point of each label.
    fn note_item(
        &mut self,
        alloc: Global,
        _func: &Func,
        points: &[u32],
        item: &Instr,
        assigned: Option<u32>,
        point: u32,
    ) -> Result<(), AllocError>
        requires placed { IsLabelTable _func.now.code points.now }
        requires labelled { HasLabels (length points.now) item.now }
        requires few { point + 1 < 2 ^ 32 }
        requires here { slice_get (remaining _func.now.code self.old.dead.items) point ≡ Some item.now }
        requires assigned { assigned ≡ number_at (Some item.now) }
        requires swept { IsSwept _func.now.code (remaining _func.now.code self.old.dead.items) (point + 1) self.old.reads.items self.old.assigns.items self.old.branch self.old.end }
        ensures dead { self.new.dead.items ≡ self.old.dead.items }
        ensures swept { OnOk result (IsSwept _func.now.code (remaining _func.now.code self.old.dead.items) point self.new.reads.items self.new.assigns.items self.new.branch self.new.end) }
    {
        Sweep::note_assigned(&mut self.assigns, assigned, point);
        let branches = branches_of(points, item, point);
        self.branch = point_if(is_branching(item, branches, point + 1), point, self.branch);
        self.end = point_if(are_none(branches), point, self.end);
        self.note_reads(alloc, item, point)?;
        Ok(())
    }

    // Looks at an item: it is dead, where it only computes what isn't live at the next point. `points` has the point of each
    // label.
    fn look(
        &mut self,
        alloc: Global,
        func: &Func,
        points: &[u32],
        point: u32,
    ) -> Result<(), AllocError>
        requires placed { IsLabelTable func.now.code points.now }
        requires labelled { All (HasLabels (length points.now)) func.now.code }
        requires few { length func.now.code < 2 ^ 32 - 1 }
        requires inside { point < length func.now.code }
        requires sound { IsSound func.now.code self.old.dead.items }
        requires none { NoneIdle func.now.code self.old.dead.items }
        requires swept { IsSwept func.now.code (remaining func.now.code self.old.dead.items) (point + 1) self.old.reads.items self.old.assigns.items self.old.branch self.old.end }
        ensures sound { OnOk result (IsSound func.now.code self.new.dead.items) }
        ensures none { OnOk result (NoneIdle func.now.code self.new.dead.items) }
        ensures swept { OnOk result (IsSwept func.now.code (remaining func.now.code self.new.dead.items) point self.new.reads.items self.new.assigns.items self.new.branch self.new.end) }
    {
        if self.dead[point as usize] {
            return Ok(());
        }
        let item = &func.code.as_slice()[point as usize];
        let assigned = assigned_number(item)?;
        if self.is_unused(item, assigned) {
            self.dead[point as usize] = true;
            return Ok(());
        }
        self.note_item(alloc, func, points, item, assigned, point)
    }
}
