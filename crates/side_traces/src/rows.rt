// The lines that stand before each item.

ghost use Rattle.std.specs.Prelude.{◌≡◌, ◌<◌, ◌++◌, ◌==◌, ◌-◌, ◌^◌, [], ℕ, IfOk, OnOk, if◌then◌else◌, length, slice_get};
ghost use Rattle.std.specs.List.{All};
ghost use Rattle.side_laws.specs.Sided.{exit_lines, exits_before};
ghost use Rattle.side_traces.specs.Exits.{exit_of};
ghost use Rattle.side_traces.specs.Made.{IsExitInside};
ghost use Rattle.side_traces.specs.Rows.{row};

use crate::exits::{Exit, Exits};
use crate::lines::push_exit;
use bril_tree::function_tree::Item;
use bril_tree::name::Name;
use bril_tree::numbered_function::Func;
use bril_tree::sequence::Seq;
use std::alloc::{AllocError, Global};

// So many empty rows.
fn empty_rows(alloc: Global, count: usize) -> Result<Vec<Seq<Item>>, AllocError>
    ensures long { IfOk result (λ rows. length rows.items ≡ count) }
    ensures empty { IfOk result (λ rows. (i : ℕ) → row rows.items i ≡ []) }
{
    let mut rows = Vec::new(alloc);
    for _row in 0..count {
        rows.push(Seq::new(alloc))?;
    }
    Ok(rows)
}

// Puts the lines of a side exit last into the row of a point.
fn put_exit(
    alloc: Global,
    rows: &mut Vec<Seq<Item>>,
    point: u32,
    code: &[Item],
    labels: &[Name],
    exit: &Exit<'_>,
) -> Result<(), AllocError>
    requires point { point < length rows.old.items }
    requires other { exit.now.pair.other < length labels.now }
    ensures long { OnOk result (length rows.new.items ≡ length rows.old.items) }
    ensures rows { OnOk result ((i : ℕ) → row rows.new.items i ≡ row rows.old.items i ++ (if point == i then exit_lines (slice_get code.now) labels.now (exit_of exit.now) else [])) }
{
    push_exit(alloc, &mut rows[point as usize], code, labels, exit)
}

/// For each item of the function, which has this code by names, the lines of the side exits that stand before it. The only error is out
/// of memory.
pub(crate) fn exit_rows(
    alloc: Global,
    func: &Func,
    code: &[Item],
    exits: &Exits,
) -> Result<Vec<Seq<Item>>, AllocError>
    requires few { length func.now.code < 2 ^ 32 - 1 }
    requires tree { length code.now ≡ length func.now.code }
    requires inside { All (IsExitInside func.now) exits.now }
    ensures long { IfOk result (λ rows. length rows.items ≡ length code.now) }
    ensures rows { IfOk result (λ rows. (i : ℕ) → row rows.items i ≡ exits_before (slice_get code.now) func.now.labels func.now.code exits.now i) }
{
    let labels = func.labels.as_slice();
    let points = func.label_points(alloc)?;
    let mut rows = empty_rows(alloc, code.len())?;
    for place in 0..exits.len() {
        let exit = exits.exit(place);
        let point = points[exit.pair.bail as usize];
        put_exit(alloc, &mut rows, point, code, labels, &exit)?;
    }
    Ok(rows)
}
