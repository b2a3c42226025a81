// What is put between the items of a function.

ghost use Rattle.std.specs.Prelude.{◌≡◌, ◌≤◌, ◌<◌, ◌+◌, ◌++◌, ◌==◌, [], ℕ, IfOk, OnOk, length, if◌then◌else◌};
ghost use Rattle.std.specs.List.{All, AllPairs};
ghost use Rattle.bril_tree.specs.Numbered.{variable_names};
ghost use Rattle.trace_stitcher.specs.matching.Fitting.{IsElsewhere};
ghost use Rattle.trace_laws.specs.lines.Lines.{TraceNames};
ghost use Rattle.trace_stitcher.specs.Inserted.{AreNamesFor, IsInside, label_put, labels_before, lines_behind, lines_of, listed_name, row, stands_at};
ghost use Rattle.trace_stitcher.specs.Sources.{AreNamesAt, AreNamesIn};

use crate::matching::Fitting;
use crate::traces::{TracedFunction, trace_of};
use bril_tree::function_tree::Item;
use bril_tree::name::Name;
use bril_tree::numbered_function::Func;
use bril_tree::sequence::Seq;
use pass_make::{TakenNames, taken_labels, taken_variables};
use std::alloc::{AllocError, Global};

/// The labels before each point of a function, and the lines behind each item.
#[derive(Drop)]
pub(crate) struct Inserted {
    pub before: Vec<Seq<Name>>,
    pub behind: Vec<Seq<Item>>,
}

// So many empty lists.
fn empty_rows<T: Drop>(alloc: Global, count: usize) -> Result<Vec<Seq<T>>, AllocError>
    ensures long { IfOk result (λ rows. length rows.items ≡ count) }
    ensures empty { IfOk result (λ rows. (i : ℕ) → row rows.items i ≡ []) }
{
    let mut rows = Vec::new(alloc);
    for _row in 0..count {
        rows.push(Seq::new(alloc))?;
    }
    Ok(rows)
}

// Puts in a label before a point, where there is one.
fn put_before(before: &mut [Seq<Name>], point: u32, label: Option<Name>) -> Result<(), AllocError>
    requires { point < length before.old }
    ensures { OnOk result ((i : ℕ) → row before.new i ≡ row before.old i ++ (if point == i then listed_name label else [])) }
{
    if let Some(label) = label {
        before[point as usize].push(label)?;
    }
    Ok(())
}

// Puts in the lines behind an item.
fn put_behind(behind: &mut [Seq<Item>], point: u32, lines: Seq<Item>)
    requires { point < length behind.old }
    ensures { (i : ℕ) → row behind.new i ≡ (if point == i then lines else row behind.old i) }
{
    behind[point as usize] = lines;
}

// Puts in what stands for an entry, which has this number, where it is of the function of another one.
fn put(
    alloc: Global,
    before: &mut [Seq<Name>],
    behind: &mut [Seq<Item>],
    function: &TracedFunction<'_, '_>,
    number: u32,
    fit: &Fitting,
) -> Result<(), AllocError>
    requires long { length before.old ≡ length function.now.code.now + 1 }
    requires items { length behind.old ≡ length function.now.code.now }
    requires inside { IsInside function.now.number (length function.now.code.now) fit.now }
    ensures before { OnOk result ((names : TraceNames) → (fit.now.function ≡ function.now.number → AreNamesAt function.now number fit.now.path.stop names) → (i : ℕ) → row before.new i ≡ row before.old i ++ label_put function.now.code.now function.now.number names fit.now i) }
    ensures behind { OnOk result ((names : TraceNames) → (fit.now.function ≡ function.now.number → AreNamesAt function.now number fit.now.path.stop names) → (i : ℕ) → row behind.new i ≡ (if stands_at function.now.number fit.now i then lines_of function.now.code.now names fit.now else row behind.old i)) }
{
    if fit.function == function.number {
        let trace = trace_of(alloc, function, number, fit)?;
        put_before(before, fit.path.stop, trace.stop)?;
        put_behind(behind, fit.point, trace.lines);
    }
    Ok(())
}

// Puts in what stands for all entries of the function of a number.
fn put_all(
    alloc: Global,
    before: &mut [Seq<Name>],
    behind: &mut [Seq<Item>],
    function: &TracedFunction<'_, '_>,
    fits: &[Fitting],
) -> Result<(), AllocError>
    requires long { length before.old ≡ length function.now.code.now + 1 }
    requires items { length behind.old ≡ length function.now.code.now }
    requires none_before { (i : ℕ) → row before.old i ≡ [] }
    requires none_behind { (i : ℕ) → row behind.old i ≡ [] }
    requires inside { All (IsInside function.now.number (length function.now.code.now)) fits.now }
    requires apart { AllPairs IsElsewhere fits.now }
    requires few { length fits.now ≤ 64 }
    ensures before { OnOk result ((names : ℕ → TraceNames) → AreNamesIn function.now fits.now names → (i : ℕ) → row before.new i ≡ labels_before function.now.code.now function.now.number names 1 fits.now i) }
    ensures behind { OnOk result ((names : ℕ → TraceNames) → AreNamesIn function.now fits.now names → (i : ℕ) → row behind.new i ≡ lines_behind function.now.code.now function.now.number names 1 fits.now i) }
{
    let mut number = 0;
    for fit in fits {
        number += 1;
        put(alloc, before, behind, function, number, fit)?;
    }
    Ok(())
}

/// What is put between the items of the function of a number, for those of all entries that are its own. The only error is out
/// of memory.
pub(crate) fn inserted_in(
    alloc: Global,
    func: &Func,
    code: &[Item],
    function: u32,
    fits: &[Fitting],
) -> Result<Inserted, AllocError>
    requires inside { All (IsInside function (length code.now)) fits.now }
    requires apart { AllPairs IsElsewhere fits.now }
    requires few { length fits.now ≤ 64 }
    ensures long { IfOk result (λ made. length made.before.items ≡ length code.now + 1) }
    ensures items { IfOk result (λ made. length made.behind.items ≡ length code.now) }
    ensures before { IfOk result (λ made. (names : ℕ → TraceNames) → AreNamesFor func.now.labels (variable_names func.now.vars) code.now function fits.now names → (i : ℕ) → row made.before.items i ≡ labels_before code.now function names 1 fits.now i) }
    ensures behind { IfOk result (λ made. (names : ℕ → TraceNames) → AreNamesFor func.now.labels (variable_names func.now.vars) code.now function fits.now names → (i : ℕ) → row made.behind.items i ≡ lines_behind code.now function names 1 fits.now i) }
{
    let labels = taken_labels(alloc, func)?;
    let variables = taken_variables(alloc, func)?;
    let mut before = empty_rows(alloc, code.len() + 1)?;
    let mut behind = empty_rows(alloc, code.len())?;
    let traced = TracedFunction {
        number: function,
        code,
        labels: &labels,
        variables: &variables,
    };
    put_all(
        alloc,
        before.as_mut_slice(),
        behind.as_mut_slice(),
        &traced,
        fits,
    )?;
    Ok(Inserted { before, behind })
}
