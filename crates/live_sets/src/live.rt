// Which locations are live at which points of a function.

ghost use Rattle.std.specs.Prelude.{◌≡◌, ◌<◌, ◌≤◌, ◌^◌, ◌-◌, ◌+◌, ◌↔◌, ℕ, List, IsTrue, None, is_some, length, slice_get, IfOk};
ghost use Rattle.bril_tree.specs.Live.{IsLive};
ghost use Rattle.bril_tree.specs.Operand.{Location, Variable, Shadow};
ghost use Rattle.bril_tree.specs.Shape.{shape_fault_of};
ghost use Rattle.bril_tree.specs.Sites.{AreSitesSound};
ghost use Rattle.bril_tree.specs.Step.{code_of};
ghost use Rattle.bril_tree.specs.declared.numbered.Instr.{Instr};
ghost use Rattle.flow_graph.specs.Faults.{IsLeastOf};
ghost use Rattle.flow_graph.specs.Location.{number_of};
ghost use Rattle.live_sets.specs.Flow.{IsFlowOf};
ghost use Rattle.live_sets.specs.Liveness.{TellsLive, has_point_if, is_live};
ghost use Rattle.live_sets.specs.Greatest.{IsGreatestOf};
ghost use Rattle.live_sets.specs.Points.{has_point};

use crate::flow::Flow;
use crate::points::Points;
use bril_checker::Checked;
use bril_tree::numbered_function::Func;
use flow_graph::Graph;
use graph_search::Reached;
use std::alloc::{AllocError, Global};

/// Which variables and shadows are live at which points of a function.
#[derive(Drop)]
pub struct Live {
    rows: Vec<Points>,
}

impl Live {
    /// What is live in the function of a number. Takes time in proportion to its items and to the pairs of a location
    /// and a point where it is live. An error means that there is no memory; a function that names a variable of a number
    /// from 2^31 on, or has 2^32 - 1 reads or edges or more, is taken to need more.
    pub fn of(alloc: Global, prog: &Checked, func: u32) -> Result<Live, AllocError>
        requires { func < length prog.now.prog.funcs }
        ensures { IfOk result (λ live. TellsLive (code_of prog.now.prog func) live) }
    {
        let prog = prog.prog();
        live_in(alloc, &prog.funcs.as_slice()[func as usize])
    }

    /// Whether the variable is live at the point: from there a path leads to an item that reads it, past no item that
    /// assigns it. A path goes on from a `speculate` also to the label of a guard whose abort ends that speculation.
    /// Takes no memory.
    pub fn at(&self, point: u32, var: u32) -> bool
        ensures { result ≡ is_live self.now (Variable var) point }
    {
        is_in_row(self.rows.as_slice(), 2 * var as usize, point)
    }

    /// Whether the variable's shadow is live at the point. Takes no memory.
    pub fn shadow_at(&self, point: u32, var: u32) -> bool
        ensures { result ≡ is_live self.now (Shadow var) point }
    {
        is_in_row(self.rows.as_slice(), 2 * var as usize + 1, point)
    }

    /// The first point at which the location of a number is live, and None exactly where it is live at none: the number is
    /// twice that of a variable, and one more for its shadow. Takes no memory, and time in proportion to the points at which
    /// it is live.
    pub fn first(&self, location: u32) -> Option<u32>
        ensures { (x : Location) → number_of x ≡ location → IsLeastOf (λ point. IsTrue (is_live self.now x point)) result }
    {
        match self.rows.get(location as usize) {
            None => None,
            Some(points) => points.first(),
        }
    }

    /// The first point from `from` on at which the location of a number, as in `first`, is live, and None exactly where it is
    /// live at none of them. Takes no memory, and time in proportion to the points from `from` up to it, or less.
    pub fn next(&self, location: u32, from: u32) -> Option<u32>
        ensures { (x : Location) → number_of x ≡ location → IsLeastOf (λ point. (from ≤ point) × IsTrue (is_live self.now x point)) result }
    {
        match self.rows.get(location as usize) {
            None => None,
            Some(points) => points.next(from),
        }
    }

    /// The last point at which the location of a number is live, and None exactly where it is live at none. Takes no memory,
    /// and time in proportion to the points at which it is live.
    pub fn last(&self, location: u32) -> Option<u32>
        ensures { (x : Location) → number_of x ≡ location → IsGreatestOf (λ point. IsTrue (is_live self.now x point)) result }
    {
        match self.rows.get(location as usize) {
            None => None,
            Some(points) => points.last(),
        }
    }
}

// Whether the point is in the row of the number; it is in none that isn't there.
fn is_in_row(rows: &[Points], number: usize, point: u32) -> bool
    ensures { result ≡ has_point_if (slice_get rows.now number) point }
{
    match rows.get(number) {
        None => false,
        Some(points) => points.contains(point),
    }
}

// What is live in a function.
fn live_in(alloc: Global, func: &Func) -> Result<Live, AllocError>
    requires shaped { shape_fault_of (is_some func.now.ret) func.now.code ≡ None }
    requires few { length func.now.code < 2 ^ 32 - 1 }
    requires sound { AreSitesSound func.now.code }
    ensures { IfOk result (λ live. TellsLive func.now.code live) }
{
    let graph = Graph::of_sound(alloc, func)?;
    let flow = Flow::of(alloc, func, &graph)?;
    table_of(alloc, &flow)
}

// What is live in the function of this flow.
fn table_of(alloc: Global, flow: &Flow) -> Result<Live, AllocError>
    ensures { IfOk result (λ live. (code : List Instr) → IsFlowOf code flow.now → TellsLive code live) }
{
    let mut reached = Reached::new(alloc, flow.points())?;
    let locations = flow.reads().locations();
    let mut rows = Vec::new(alloc);
    for location in 0..locations {
        rows.push(row_of(alloc, flow, &mut reached, location as u32)?)?;
    }
    Ok(Live { rows })
}

// The points at which the location of a number is live.
fn row_of(
    alloc: Global,
    flow: &Flow,
    reached: &mut Reached,
    location: u32,
) -> Result<Points, AllocError>
    requires points { reached.old.nodes ≡ flow.now.points }
    ensures points { reached.new.nodes ≡ reached.old.nodes }
    ensures row { IfOk result (λ row. (code : List Instr) → IsFlowOf code flow.now → (x : Location) → number_of x ≡ location
        → (point : ℕ) → IsTrue (has_point row point) ↔ IsLive code x point) }
{
    flow.search_live(alloc, reached, location)?;
    let row = Points::of(alloc, reached.found(), flow.points())?;
    Ok(row)
}
