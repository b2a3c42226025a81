// The entries that fit.

ghost use Rattle.std.specs.Prelude.{◌≡◌, ◌<◌, ◌+◌, ◌-◌, ◌^◌, ◌++◌, ℕ, IfOk, None, OnOk, Some, [], is_some, length, map, min, slice_get};
ghost use Rattle.std.specs.List.{All, AllPairs, list_any};
ghost use Rattle.bril_tree.specs.Accepted.{IsAccepted};
ghost use Rattle.bril_tree.specs.Shape.{shape_fault_of};
ghost use Rattle.bril_tree.specs.Sites.{AreSitesSound};
ghost use Rattle.bril_tree.specs.Size.{IsCounted};
ghost use Rattle.bril_tree.specs.Step.{point_of};
ghost use Rattle.trace_stitcher.specs.matching.Fitting.{HasPath, IsElsewhere, IsFound, IsFoundAt, added_by, fit_of, has_room, is_at, listed_fit};
ghost use Rattle.trace_stitcher.specs.matching.Surveys.{IsSurvey, IsSurveyOf};
ghost use Rattle.trace_paths.specs.Fits.{FitsAre, count_of};
ghost use Rattle.trace_paths.specs.Taken.{taken};

use crate::matching::places::{function_named, label_named};
use crate::matching::ranking::{entry_at, ranked};
use crate::matching::surveys::{Survey, surveyed};
use bril_profile::Entry;
use bril_tree::numbered_function::Func;
use bril_tree::program::Prog;
use bril_tree::sequence::Seq;
use flow_graph::Graph;
use std::alloc::{AllocError, Global};
use trace_paths::{Path, path_within};

/// An entry that fits: the numbers of its function and of its label's point, its choices, and its path.
#[derive(Drop)]
pub struct Fitting {
    pub function: u32,
    pub point: u32,
    pub choices: Seq<bool>,
    pub path: Path,
}

// Whether some walk leads to the point with fewer than eight open sites.
fn may_speculate(graph: &Graph, point: u32) -> bool
    requires { point < length graph.now.sites }
    ensures { result ≡ has_room (slice_get graph.now.sites point) }
{
    match graph.sites(point) {
        None => false,
        Some(sites) => sites.len() < 8,
    }
}

// Whether one of these is at the point of the function.
fn is_taken(found: &[Fitting], function: u32, point: u32) -> bool
    ensures { result ≡ list_any (is_at function point) found.now }
{
    found
        .iter()
        .any(|fit| fit.function == function && fit.point == point)
}

// The choices, once more.
fn copied(alloc: Global, choices: &[bool]) -> Result<Seq<bool>, AllocError>
    ensures { IfOk result (λ made. made ≡ choices.now) }
{
    Ok(Seq::of_items(Vec::from_slice(alloc, choices)?))
}

// The entry at a label of the function that is surveyed, where it fits behind those that were found.
fn fitting_at(
    alloc: Global,
    func: &Func,
    survey: &Survey,
    label: usize,
    choices: &[bool],
    found: &[Fitting],
) -> Result<Option<Fitting>, AllocError>
    requires shaped { shape_fault_of (is_some func.now.ret) func.now.code ≡ None }
    requires few { length func.now.code < 2 ^ 32 - 1 }
    requires sound { AreSitesSound func.now.code }
    requires survey { IsSurveyOf func.now survey.now }
    requires label { label < length func.now.labels }
    ensures { IfOk result (IsFoundAt func.now.code survey.now.function (point_of label func.now.code) choices.now found.now) }
{
    let point = survey.points[label];
    if !may_speculate(&survey.graph, point) || is_taken(found, survey.function, point) {
        return Ok(None);
    }
    let points = survey.points.as_slice();
    let path = path_within(alloc, func.code.as_slice(), points, point, 1023, choices)?;
    if path.legs.as_slice().is_empty() {
        return Ok(None);
    }
    Ok(Some(Fitting {
        function: survey.function,
        point,
        choices: copied(alloc, choices)?,
        path,
    }))
}

// The entry, where it fits behind those that were found.
fn fitted(
    alloc: Global,
    prog: &Prog,
    surveys: &mut Vec<Survey>,
    entry: &Entry,
    found: &[Fitting],
) -> Result<Option<Fitting>, AllocError>
    requires accepted { IsAccepted prog.now }
    requires counted { IsCounted prog.now }
    requires surveys { All (IsSurvey prog.now) surveys.old.items }
    ensures surveys { OnOk result (All (IsSurvey prog.now) surveys.new.items) }
    ensures found { IfOk result (IsFound prog.now entry.now found.now) }
{
    let funcs = prog.funcs.as_slice();
    let Some(function) = function_named(funcs, &entry.func) else {
        return Ok(None);
    };
    let func = &funcs[function as usize];
    let Some(label) = label_named(func.labels.as_slice(), &entry.label) else {
        return Ok(None);
    };
    let place = surveyed(alloc, prog, surveys, function)?;
    let choices = entry.choices.as_slice();
    fitting_at(alloc, func, &surveys[place], label, choices, found)
}

// Adds the entry, where it fits.
fn push_found(found: &mut Vec<Fitting>, fit: Option<Fitting>) -> Result<(), AllocError>
    ensures { OnOk result (found.new.items ≡ found.old.items ++ listed_fit fit) }
{
    if let Some(fit) = fit {
        found.push(fit)?;
    }
    Ok(())
}

/// The entries that fit the program, each with its path, in the order in which they are taken: by falling count, equal counts
/// in the order given. The only error is out of memory. Takes time in proportion to the functions that have entries, and to
/// the square of the number of entries.
pub fn fitting_entries(
    alloc: Global,
    prog: &Prog,
    entries: &[Entry],
) -> Result<Vec<Fitting>, AllocError>
    requires accepted { IsAccepted prog.now }
    requires counted { IsCounted prog.now }
    ensures fits { IfOk result (λ found. FitsAre prog.now [] (taken count_of entries.now) (map fit_of found.items)) }
    ensures paths { IfOk result (λ found. All (HasPath prog.now) found.items) }
    ensures apart { IfOk result (λ found. AllPairs IsElsewhere found.items) }
{
    let ranks = ranked(alloc, entries)?;
    let mut surveys = Vec::new(alloc);
    let mut found = Vec::new(alloc);
    for rank in ranks.as_slice() {
        let entry = entry_at(entries, rank.place);
        let fit = fitted(alloc, prog, &mut surveys, entry, found.as_slice())?;
        push_found(&mut found, fit)?;
    }
    Ok(found)
}

/// How many items a program has at most with the traces of these entries, from its number of items on: for each entry twice
/// what it lays, and five; or 2^64 - 1 where that is greater. Takes no memory.
pub fn added_items(items: u64, found: &[Fitting]) -> u64
    ensures { result ≡ min (items + added_by found.now) 18446744073709551615 }
{
    let mut bound = items;
    for fit in found {
        bound = bound.saturating_add(2 * fit.path.legs.as_slice().len() as u64 + 5);
    }
    bound
}
