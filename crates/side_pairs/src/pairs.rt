// The paired guards of a function.

ghost use Rattle.std.specs.Prelude.{◌≡◌, ◌<◌, ◌-◌, ◌^◌, None, Some, IfOk, OnOk, is_some, length, slice_get};
ghost use Rattle.bril_tree.specs.Shape.{shape_fault_of};
ghost use Rattle.bril_tree.specs.Sites.{AreSitesSound};
ghost use Rattle.flow_graph.specs.Graph.{IsGraphOf};
ghost use Rattle.flow_graph.specs.Reads.{reads_from};
ghost use Rattle.side_laws.specs.Paired.{ArePairs, IsRun};
ghost use Rattle.side_pairs.specs.Adding.{Adds, AddsAt, IsFirstSpot};
ghost use Rattle.side_pairs.specs.Pairs.{pair_of};
ghost use Rattle.side_pairs.specs.Readers.{AreReaders};
ghost use Rattle.side_pairs.specs.Runs.{run_of};
ghost use Rattle.side_pairs.specs.Tables.{IsPointTable};

use crate::draft::Draft;
use crate::labels::label_point;
use crate::readers::{Readers, readers_of};
use crate::run::{Run, run_at};
use crate::step::{Spot, Step, next_step};
use crate::walk::Walker;
use bril_tree::numbered::Instr;
use bril_tree::numbered_function::Func;
use flow_graph::Graph;
use std::alloc::{AllocError, Global};
use std::marker::Model;

/// A guard that is paired with a branch: where it stands, the label that it names, where the items stand that are kept before it, in
/// their order, and the label to which its branch goes once it has failed.
#[derive(Clone, Copy, Drop)]
pub struct PairedGuard<'p> {
    pub guard: u32,
    pub bail: u32,
    pub kept: &'p [u32],
    pub other: u32,
}

/// The paired guards of a function in the order of their items, as clauses see them by their list.
#[derive(Drop)]
pub struct Pairs {
    draft: Draft,
}

impl Model for Pairs {
    ghost use Rattle.std.specs.Prelude.{List};
    ghost use Rattle.side_laws.specs.Paired.{Pair};

    ghost Value = { List Pair };

    ghost view = { λ pairs. pairs.draft.pairs };
}

impl Pairs {
    /// How many there are. Takes no memory.
    pub fn len(&self) -> usize
        ensures { result ≡ length self.now }
    {
        self.draft.len()
    }

    /// One of them, by its place. Takes no memory.
    pub fn pair(&self, place: usize) -> PairedGuard<'_>
        requires { place < length self.now }
        ensures { Some (pair_of result) ≡ slice_get self.now place }
    {
        self.draft.paired(place)
    }
}

// Where pairing begins in a run: at its first item, with the walk behind the label that its guards name.
fn first_spot(code: &[Instr], points: &[u32], run: Run) -> Spot
    requires points { IsPointTable code.now points.now }
    requires few { length code.now < 2 ^ 32 - 1 }
    requires run { IsRun code.now (run_of run) }
    ensures { IsFirstSpot code.now run result }
{
    Spot {
        item: run.start + 1,
        room: run.size,
        walker: Walker {
            left: 1023,
            point: label_point(code, points, run.bail) + 1,
        },
    }
}

// Adds the pairs of a run.
fn pair_run(
    code: &[Instr],
    points: &[u32],
    readers: &[Readers],
    run: Run,
    draft: &mut Draft,
) -> Result<(), AllocError>
    requires points { IsPointTable code.now points.now }
    requires readers { AreReaders (reads_from 0 code.now) readers.now }
    requires few { length code.now < 2 ^ 32 - 1 }
    requires run { IsRun code.now (run_of run) }
    ensures { OnOk result (Adds code.now (run_of run) draft.old.pairs draft.new.pairs) }
{
    let first = draft.kept_count();
    let mut spot = first_spot(code, points, run);
    'items: while spot.room > 0 {
        match next_step(code, points, readers, spot) {
            Step::Ends => return Ok(()),
            Step::Passes(next) => spot = next,
            Step::Keeps(next) => {
                draft.keep(spot.item)?;
                spot = next;
            }
            Step::Pairs(guard, other, next) => {
                draft.pair(guard, run.bail, other, first)?;
                spot = next;
            }
        }
    }
    Ok(())
}

// Adds the pairs of the run that begins at a point, where one does.
fn pair_at(
    code: &[Instr],
    points: &[u32],
    readers: &[Readers],
    graph: &Graph,
    point: u32,
    draft: &mut Draft,
) -> Result<(), AllocError>
    requires points { IsPointTable code.now points.now }
    requires readers { AreReaders (reads_from 0 code.now) readers.now }
    requires graph { IsGraphOf code.now graph.now }
    requires few { length code.now < 2 ^ 32 - 1 }
    requires inside { point < length code.now }
    ensures { OnOk result (AddsAt code.now point draft.old.pairs draft.new.pairs) }
{
    match run_at(code, points, graph, point) {
        None => Ok(()),
        Some(run) => pair_run(code, points, readers, run, draft),
    }
}

// The pairs of all runs.
fn all_pairs(
    alloc: Global,
    code: &[Instr],
    points: &[u32],
    readers: &[Readers],
    graph: &Graph,
) -> Result<Draft, AllocError>
    requires points { IsPointTable code.now points.now }
    requires readers { AreReaders (reads_from 0 code.now) readers.now }
    requires graph { IsGraphOf code.now graph.now }
    requires few { length code.now < 2 ^ 32 - 1 }
    ensures { IfOk result (λ draft. ArePairs code.now draft.pairs) }
{
    let mut draft = Draft::new(alloc);
    for point in 0..code.len() as u32 {
        pair_at(code, points, readers, graph, point, &mut draft)?;
    }
    Ok(draft)
}

/// The paired guards of a function of an accepted program. Takes time in proportion to its items and variables, and for each run to
/// the items that its walk meets, and memory in proportion to its items and variables. The only error is out of memory.
pub fn paired_guards(alloc: Global, func: &Func) -> Result<Pairs, AllocError>
    requires shaped { shape_fault_of (is_some func.now.ret) func.now.code ≡ None }
    requires sound { AreSitesSound func.now.code }
    requires few { length func.now.code < 2 ^ 32 - 1 }
    ensures { IfOk result (ArePairs func.now.code) }
{
    let graph = Graph::of_sound(alloc, func)?;
    let points = func.label_points(alloc)?;
    let code = func.code.as_slice();
    let readers = readers_of(alloc, code)?;
    let draft = all_pairs(alloc, code, points.as_slice(), readers.as_slice(), &graph)?;
    Ok(Pairs { draft })
}
