// Which locations the speculations of `speculate` items save.

ghost use Rattle.std.specs.Prelude.{◌≡◌, ◌<◌, ◌+◌, ◌*◌, false, length, replicate, IfOk, OnOk};
ghost use Rattle.placement_laws.specs.Search.{AreOpenArcs};
ghost use Rattle.shadow_place.specs.Marks.{AddsAll, IsMarkedBefore, IsMarkedOut, first_row, first_rows};
ghost use Rattle.shadow_place.specs.Placement.{AreAnalyses, AreSavedRows};

use crate::analyses::Analyses;
use crate::arcs::{guards_to, is_reached, open_arcs};
use crate::marks::mark_points;
use bril_tree::numbered::Instr;
use bril_tree::operation::Op;
use bril_tree::sequence::Seq;
use graph_search::{ArcGraph, OtherThan, Reached, number_of_length};
use std::alloc::{AllocError, Global};

// The most speculations that are open at once.
const MOST_OPEN: usize = 8;

// Marks the locations that are live at the label, and that some item assigns from which the guards of the level that abort to
// the label are reached, in the rows of the sites of the level there.
fn mark_label(
    alloc: Global,
    rows: &mut Vec<Seq<bool>>,
    reached: &mut Reached,
    arcs: &ArcGraph,
    known: &Analyses<'_>,
    level: usize,
    label: u32,
) -> Result<(), AllocError>
    requires known { AreAnalyses known.now }
    requires arcs { AreOpenArcs known.now.func.now.code level arcs.now.arcs }
    requires points { arcs.now.nodes ≡ length known.now.func.now.code + 1 }
    requires nodes { reached.old.nodes ≡ arcs.now.nodes }
    requires label { label < length known.now.func.now.code + 1 }
    ensures nodes { reached.new.nodes ≡ reached.old.nodes }
    ensures marks { OnOk result (AddsAll (IsMarkedOut known.now level label) rows.old.items rows.new.items) }
{
    let guards = guards_to(
        alloc,
        known.graph,
        known.lowered.depths.as_slice(),
        level,
        label,
    )?;
    reached.search(arcs, guards.as_slice(), &OtherThan { label: 0 })?;
    mark_points(alloc, rows, known, level, label, reached.found())?;
    Ok(())
}

// Marks what the speculations of a level save, where these are its arcs.
fn mark_labels(
    alloc: Global,
    rows: &mut Vec<Seq<bool>>,
    arcs: &ArcGraph,
    known: &Analyses<'_>,
    level: usize,
) -> Result<(), AllocError>
    requires known { AreAnalyses known.now }
    requires arcs { AreOpenArcs known.now.func.now.code level arcs.now.arcs }
    requires points { arcs.now.nodes ≡ length known.now.func.now.code + 1 }
    ensures { OnOk result (AddsAll (IsMarkedBefore known.now level (length known.now.func.now.code + 1)) rows.old.items rows.new.items) }
{
    let mut reached = Reached::new(alloc, arcs.nodes())?;
    let points = known.func.code.as_slice().len() as u32 + 1;
    for label in 0..points {
        mark_label(alloc, rows, &mut reached, arcs, known, level, label)?;
    }
    Ok(())
}

// The arcs back between the points where the level is open. A function with 2^32 - 1 of them or more is taken to need more
// memory than there is.
fn open_graph(alloc: Global, known: &Analyses<'_>, level: usize) -> Result<ArcGraph, AllocError>
    requires known { AreAnalyses known.now }
    requires level { 0 < level }
    ensures points { IfOk result (λ arcs. arcs.nodes ≡ length known.now.func.now.code + 1) }
    ensures arcs { IfOk result (λ arcs. AreOpenArcs known.now.func.now.code level arcs.arcs) }
{
    let arcs = open_arcs(
        alloc,
        known.graph.edges(),
        known.lowered.depths.as_slice(),
        level,
    )?;
    number_of_length(arcs.len())?;
    let arcs = ArcGraph::of(alloc, known.func.code.as_slice().len() + 1, arcs)?;
    Ok(arcs)
}

// Marks what the speculations of a level save, in the rows of their sites; nothing where the level is open nowhere.
fn mark_level(
    alloc: Global,
    rows: &mut Vec<Seq<bool>>,
    known: &Analyses<'_>,
    level: usize,
) -> Result<(), AllocError>
    requires known { AreAnalyses known.now }
    requires level { 0 < level }
    ensures { OnOk result (AddsAll (IsMarkedBefore known.now level (length known.now.func.now.code + 1)) rows.old.items rows.new.items) }
{
    if is_reached(known.lowered.depths.as_slice(), level) {
        let arcs = open_graph(alloc, known, level)?;
        mark_labels(alloc, rows, &arcs, known, level)?;
    }
    Ok(())
}

// No mark for each location of so many variables. A function that has 2^32 or more is taken to need more memory than there is.
fn no_marks(alloc: Global, variables: usize) -> Result<Vec<bool>, AllocError>
    ensures { IfOk result (λ row. row.items ≡ replicate (2 * variables) false) }
{
    if variables > u32::MAX as usize {
        return Err(AllocError);
    }
    vec![in alloc; false; 2 * variables]
}

// The first row of an item: no mark for each location if it is a `speculate`, else the empty row, which takes no memory.
fn first_row(alloc: Global, item: &Instr, variables: usize) -> Result<Seq<bool>, AllocError>
    ensures { IfOk result (λ row. row ≡ first_row variables item.now) }
{
    match item {
        Instr::Act {
            op: Op::Speculate,
            ..
        } => Ok(Seq::of_items(no_marks(alloc, variables)?)),
        _ => Ok(Seq::new(alloc)),
    }
}

// The first row of each item.
fn first_rows(alloc: Global, code: &[Instr], variables: usize) -> Result<Vec<Seq<bool>>, AllocError>
    ensures { IfOk result (λ rows. rows.items ≡ first_rows variables code.now) }
{
    let mut rows = Vec::new(alloc);
    for item in code {
        rows.push(first_row(alloc, item, variables)?)?;
    }
    Ok(rows)
}

// For each point, if it is a `speculate`, whether its speculation saves a location, by the locations' numbers. No rows at all
// where no speculation is ever open.
pub(crate) fn saved_rows(alloc: Global, known: &Analyses<'_>) -> Result<Vec<Seq<bool>>, AllocError>
    requires { AreAnalyses known.now }
    ensures { IfOk result (λ rows. AreSavedRows known.now.func.now.code rows.items) }
{
    if !is_reached(known.lowered.depths.as_slice(), 1) {
        return Ok(Vec::new(alloc));
    }
    let mut rows = first_rows(alloc, known.func.code.as_slice(), known.lowered.variables)?;
    for level in 1..MOST_OPEN + 1 {
        mark_level(alloc, &mut rows, known, level)?;
    }
    Ok(rows)
}
