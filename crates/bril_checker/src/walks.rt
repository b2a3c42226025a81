// Faults along the walks of a function: a speculation that is open where a frame begins or ends, and an end that
// returns no value.

ghost use Rattle.std.specs.Prelude.{◌≡◌, ◌^◌, ◌-◌, ◌<◌, ℕ, List, ◌↔◌, IsTrue, IsSome, Some, None, length, slice_get, MatchOption};
ghost use Rattle.bril_tree.specs.Accepted.{leaves_frame};
ghost use Rattle.bril_tree.specs.Sites.{AreSitesSound};
ghost use Rattle.bril_tree.specs.Walk.{IsReached};
ghost use Rattle.flow_graph.specs.Graph.{IsGraphOf};
ghost use Rattle.bril_checker.specs.Faults.{IsFirstOpen, LeavesOpen};

use bril_tree::numbered::Instr;
use bril_tree::numbered_function::Func;
use bril_tree::operation::Op;
use flow_graph::Graph;

// Whether the item at a point, or the function's end, begins or ends a frame.
fn leaves_frame(code: &[Instr], point: u32) -> bool
    ensures { result ≡ leaves_frame (slice_get code.now point) }
{
    match code.get(point as usize) {
        None => true,
        Some(Instr::Act { op, .. }) => matches!(op, Op::Call | Op::Ret),
        Some(_) => false,
    }
}

// The number of the sites that are open at a point; 0 where no walk leads there.
pub fn open_sites(graph: &Graph, point: u32) -> usize
    requires { point < length graph.now.sites }
    ensures reached { (sites : List ℕ) → slice_get graph.now.sites point ≡ Some (Some sites) → result ≡ length sites }
    ensures unreached { slice_get graph.now.sites point ≡ Some None → result ≡ 0 }
{
    match graph.sites(point) {
        None => 0,
        Some(sites) => sites.len(),
    }
}

// Whether a walk comes with open sites to a point at which a frame begins or ends.
fn leaves_open(func: &Func, graph: &Graph, point: u32) -> bool
    requires graph { IsGraphOf func.now.code graph.now }
    requires sound { AreSitesSound func.now.code }
    requires point { point < length graph.now.sites }
    ensures { IsTrue result ↔ LeavesOpen func.now point }
{
    leaves_frame(func.code.as_slice(), point) && open_sites(graph, point) > 0
}

// The first point at which a frame begins or ends with open sites.
pub fn first_open(func: &Func, graph: &Graph) -> Option<u32>
    requires few { length func.now.code < 2 ^ 32 - 1 }
    requires graph { IsGraphOf func.now.code graph.now }
    requires sound { AreSitesSound func.now.code }
    ensures { MatchOption result ((point : ℕ) → ¬ LeavesOpen func.now point) (IsFirstOpen func.now) }
{
    let end = func.code.as_slice().len() as u32;
    for point in 0..end + 1 {
        if leaves_open(func, graph, point) {
            return Some(point);
        }
    }
    None
}

// Whether a walk leads to the end of a function that returns a value.
pub fn falls_off_end(func: &Func, graph: &Graph) -> bool
    requires few { length func.now.code < 2 ^ 32 - 1 }
    requires graph { IsGraphOf func.now.code graph.now }
    ensures { IsTrue result
        ↔ (IsSome func.now.ret × IsReached func.now.code (length func.now.code)) }
{
    func.ret.is_some() && graph.reach(func.code.as_slice().len() as u32)
}
