// The wanted `get`s of a function, by their labels.

ghost use Rattle.std.specs.Prelude.{◌≡◌, ◌<◌, ◌≤◌, ◌+◌, ◌*◌, ◌↔◌, ◌^◌, ◌-◌, [], ℕ, IfOk, OnOk, None, is_some, length, slice_index};
ghost use Rattle.std.specs.List.{All, Contains};
ghost use Rattle.bril_tree.specs.Shape.{shape_fault_of};
ghost use Rattle.bril_tree.specs.Sites.{AreSitesSound};
ghost use Rattle.flow_graph.specs.Accesses.{Accesses};
ghost use Rattle.flow_graph.specs.Graph.{IsGraphOf};
ghost use Rattle.ssa_search.specs.gets.Found.{AreFoundBefore};
ghost use Rattle.ssa_search.specs.gets.Wants.{AreWantsOf, row_of};

use crate::accesses::{distinct, location_count};
use crate::gets::found::live_pairs;
use crate::gets::rows::{base_of, push_row};
use crate::renaming::WantedGet;
use bril_tree::numbered_function::Func;
use flow_graph::{AccessLists, Graph};
use graph_search::{ArcGraph, Reached};
use std::alloc::{AllocError, Global};
use std::marker::Model;

/// The wanted `get`s of a function: those behind one label beside each other, and the `get`s of a label with fewer items before it
/// first. Their definitions have numbers in this order, behind those of the arguments and the items.
#[derive(Drop)]
pub struct Wants {
    starts: Vec<u32>,
    list: Vec<WantedGet>,
}

impl Model for Wants {
    ghost use Rattle.ssa_search.specs.gets.Rows.{AreParts};
    ghost use Rattle.ssa_search.specs.gets.Wants.{WantsView};

    ghost Value = { WantsView };

    ghost view = { λ w. record { starts = w.starts.items; list = w.list.items } };

    ghost invariant = { λ w. AreParts w.starts.items w.list.items };
}

impl Wants {
    /// All `get`s, in the order of their definitions. Takes no memory.
    pub fn list(&self) -> &[WantedGet]
        ensures { result.now ≡ self.now.list }
    {
        self.list.as_slice()
    }

    /// For each point where those behind it begin in the list; they end where those behind the next point begin. Takes no memory.
    pub fn starts(&self) -> &[u32]
        ensures value { result.now ≡ self.now.starts }
        ensures within { (k : ℕ) → slice_index result.now k ≤ length self.now.list }
    {
        self.starts.as_slice()
    }

    /// The `get`s behind the label at a point; there are none where no label stands. Takes no memory.
    pub fn behind(&self, point: u32) -> &[WantedGet]
        requires { point + 1 < length self.now.starts }
        ensures { result.now ≡ row_of self.now point }
    {
        let point = point as usize;
        let from = self.starts[point] as usize;
        let to = self.starts[point + 1] as usize;
        &self.list.as_slice()[from..to]
    }
}

// Makes the table of reached have the locations that were found at a point, each once. `none` is a graph without arcs.
fn find_row(
    alloc: Global,
    found: &AccessLists,
    reached: &mut Reached,
    none: &ArcGraph,
    point: u32,
) -> Result<(), AllocError>
    requires nodes { reached.old.nodes ≡ none.now.nodes }
    requires none { none.now.arcs ≡ [] }
    requires within { All (λ access. access.item < none.now.nodes) found.now.list }
    ensures nodes { reached.new.nodes ≡ reached.old.nodes }
    ensures found { OnOk result ((x : ℕ) → Contains reached.new.found x ↔ Accesses found.now.list point x) }
{
    let items = found.items(alloc, point)?;
    distinct(reached, none, items.as_slice())?;
    Ok(())
}

// The rows of all points. `found` has the pairs of a reached label and a location that is live there, `base` the number of
// definitions that are arguments and items, and `locations` a bound of the locations' numbers.
fn rows_of(
    alloc: Global,
    func: &Func,
    base: u32,
    locations: u32,
    found: &AccessLists,
) -> Result<Wants, AllocError>
    requires few { length func.now.code < 2 ^ 32 - 1 }
    requires base { base ≡ func.now.args + length func.now.code }
    requires locations { locations ≡ 2 * length func.now.vars }
    requires shaped { shape_fault_of (is_some func.now.ret) func.now.code ≡ None }
    requires found { AreFoundBefore func.now.code locations found.now.list }
    ensures { IfOk result (AreWantsOf func.now) }
{
    let none = ArcGraph::of(alloc, locations as usize, Vec::new(alloc))?;
    let mut reached = Reached::new(alloc, locations as usize)?;
    let mut starts = Vec::new(alloc);
    starts.push(0)?;
    let mut list = Vec::new(alloc);
    for point in 0..func.code.as_slice().len() {
        find_row(alloc, found, &mut reached, &none, point as u32)?;
        push_row(&mut starts, &mut list, base, reached.found())?;
    }
    Ok(Wants { starts, list })
}

/// The wanted `get`s of a function whose items have the shapes of their operations and whose open sites are sound: one for each
/// pair of a reached label and a location that is live there. Takes time and memory in proportion to the items, their arguments and
/// the branches that lead to what is found. The only error is want of memory, which a function is taken to have where arguments,
/// items and `get`s are 2^32 or more together, or that has 2^31 - 65 variables or more, or where `blocks_of` takes it to be lacking.
pub fn wanted_gets(alloc: Global, func: &Func, graph: &Graph) -> Result<Wants, AllocError>
    requires shaped { shape_fault_of (is_some func.now.ret) func.now.code ≡ None }
    requires few { length func.now.code < 2 ^ 32 - 1 }
    requires graph { IsGraphOf func.now.code graph.now }
    requires sound { AreSitesSound func.now.code }
    ensures { IfOk result (AreWantsOf func.now) }
{
    let base = base_of(func.args, func.code.as_slice().len())?;
    let locations = location_count(func.vars.as_slice().len())?;
    let found = live_pairs(alloc, func, graph, locations)?;
    let wants = rows_of(alloc, func, base, locations, &found)?;
    Ok(wants)
}
