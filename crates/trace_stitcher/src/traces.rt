// What an entry that fits puts into its function.

ghost use Rattle.std.specs.Prelude.{◌≡◌, ◌≤◌, IfOk, length, map, slice_get};
ghost use Rattle.trace_laws.specs.lines.Lines.{TraceNames, bool_type, trace_lines};
ghost use Rattle.trace_paths.specs.Walked.{leg_of};
ghost use Rattle.trace_stitcher.specs.Sources.{AreNamesAt};
ghost use Rattle.trace_stitcher.specs.Stops.{IsStop, put_stop};

use crate::fresh_names::trace_base;
use crate::lines::trace_lines;
use crate::matching::Fitting;
use bril_tree::function_tree::Item;
use bril_tree::name::Name;
use bril_tree::sequence::Seq;
use pass_make::TakenNames;
use std::alloc::{AllocError, Global};

/// What is put in for an entry: the lines behind its label, and the label before the item where its path stops, unless that is
/// a label already.
#[derive(Drop)]
pub(crate) struct Trace {
    pub lines: Seq<Item>,
    pub stop: Option<Name>,
}

/// The function into which traces are put: its number and its items, and the names of its labels and variables.
#[derive(Clone, Copy, Drop)]
pub(crate) struct TracedFunction<'a, 't> {
    pub number: u32,
    pub code: &'a [Item],
    pub labels: &'a TakenNames<'t>,
    pub variables: &'a TakenNames<'t>,
}

// The label at which a trace goes on whose path stops at a point, for the entry of this number.
fn stop_label(
    alloc: Global,
    function: &TracedFunction<'_, '_>,
    number: u32,
    point: u32,
) -> Result<Name, AllocError>
    ensures { IfOk result (λ stop. IsStop function.now.labels.now number (slice_get function.now.code.now point) stop) }
{
    if let Some(Item::Label(label)) = function.code.get(point as usize) {
        return label.copied(alloc);
    }
    function
        .labels
        .fresh(alloc, trace_base(alloc, number, b".stop".as_slice())?)
}

// That label, where it has to be put before the item at the point.
fn put_label(code: &[Item], point: u32, stop: Name) -> Option<Name>
    ensures { result ≡ put_stop (slice_get code.now point) stop }
{
    match code.get(point as usize) {
        Some(Item::Label(_)) => None,
        _ => Some(stop),
    }
}

/// What is put in for an entry that fits, the one of this number, into its function. The only error is out of memory.
pub(crate) fn trace_of(
    alloc: Global,
    function: &TracedFunction<'_, '_>,
    number: u32,
    fit: &Fitting,
) -> Result<Trace, AllocError>
    requires { length fit.now.path.legs.items ≤ 256 }
    ensures lines { IfOk result (λ made. (names : TraceNames) → AreNamesAt function.now number fit.now.path.stop names → made.lines ≡ trace_lines bool_type (slice_get function.now.code.now) names (map leg_of fit.now.path.legs.items)) }
    ensures stop { IfOk result (λ made. (names : TraceNames) → AreNamesAt function.now number fit.now.path.stop names → made.stop ≡ put_stop (slice_get function.now.code.now fit.now.path.stop) names.stop) }
{
    let code = function.code;
    let variables = function.variables;
    let legs = fit.path.legs.as_slice();
    let base = trace_base(alloc, number, b".bail".as_slice())?;
    let bail = function.labels.fresh(alloc, base)?;
    let stop = stop_label(alloc, function, number, fit.path.stop)?;
    let lines = trace_lines(alloc, code, legs, variables, number, bail, &stop)?;
    Ok(Trace {
        lines,
        stop: put_label(code, fit.path.stop, stop),
    })
}
