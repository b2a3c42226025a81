// What is known of the functions with entries.

ghost use Rattle.std.specs.Prelude.{◌≡◌, ◌<◌, ◌≤◌, ◌-◌, ◌^◌, IfOk, None, OnOk, Some, is_some, length, slice_get};
ghost use Rattle.std.specs.List.{All};
ghost use Rattle.bril_tree.specs.Accepted.{IsAccepted};
ghost use Rattle.bril_tree.specs.Size.{IsCounted};
ghost use Rattle.bril_tree.specs.Shape.{shape_fault_of};
ghost use Rattle.bril_tree.specs.Sites.{AreSitesSound};

use bril_tree::numbered_function::Func;
use bril_tree::program::Prog;
use flow_graph::Graph;
use std::alloc::{AllocError, Global};

/// A function, its flow graph, and the points of its labels by their numbers.
#[derive(Drop)]
pub(crate) struct Survey {
    pub function: u32,
    pub graph: Graph,
    pub points: Vec<u32>,
}

ghost use Rattle.trace_stitcher.specs.matching.Surveys.{IsSurvey, IsSurveyOf};
ghost use Rattle.trace_stitcher.specs.declared.matching.surveys.Survey.{Survey};

// The survey of a function, which has this number.
fn survey_of(alloc: Global, func: &Func, function: u32) -> Result<Survey, AllocError>
    requires shaped { shape_fault_of (is_some func.now.ret) func.now.code ≡ None }
    requires few { length func.now.code < 2 ^ 32 - 1 }
    requires sound { AreSitesSound func.now.code }
    ensures function { IfOk result (λ made. made.function ≡ function) }
    ensures survey { IfOk result (IsSurveyOf func.now) }
{
    Ok(Survey {
        function,
        graph: Graph::of_sound(alloc, func)?,
        points: func.label_points(alloc)?,
    })
}

// The place of the function's survey among these; their number where it isn't there.
fn place_of(surveys: &[Survey], function: u32) -> usize
    ensures within { result ≤ length surveys.now }
    ensures is { (s : Survey) → slice_get surveys.now result ≡ Some s → s.function ≡ function }
{
    for (place, known) in surveys.iter().enumerate() {
        if known.function == function {
            return place;
        }
    }
    surveys.len()
}

/// The place of the survey of a function, which has this number and is surveyed where it isn't yet. The only error is out of memory.
pub(crate) fn surveyed(
    alloc: Global,
    prog: &Prog,
    surveys: &mut Vec<Survey>,
    function: u32,
) -> Result<usize, AllocError>
    requires accepted { IsAccepted prog.now }
    requires counted { IsCounted prog.now }
    requires there { function < length prog.now.funcs }
    requires surveys { All (IsSurvey prog.now) surveys.old.items }
    ensures surveys { OnOk result (All (IsSurvey prog.now) surveys.new.items) }
    ensures within { IfOk result (λ place. place < length surveys.new.items) }
    ensures is { IfOk result (λ place. (s : Survey) → slice_get surveys.new.items place ≡ Some s → s.function ≡ function) }
{
    let place = place_of(surveys.as_slice(), function);
    if place == surveys.len() {
        let func = &prog.funcs.as_slice()[function as usize];
        surveys.push(survey_of(alloc, func, function)?)?;
    }
    Ok(place)
}
