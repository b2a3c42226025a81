// The variables of a function that are live at each of its points.

ghost use Rattle.std.specs.Prelude.{◌≡◌, ◌+◌, ◌<◌, ◌≤◌, ◌^◌, ℕ, IsTrue, [], ◌∷◌, ◌++◌, length, slice_set, IfOk, OnOk};
ghost use Rattle.bril_tree.specs.Operand.{Variable};
ghost use Rattle.live_sets.specs.Liveness.{is_live};
ghost use Rattle.rv64_emit.specs.LiveVariables.{AreLiveRows, row};

use bril_tree::sequence::Seq;
use live_sets::Live;
use std::alloc::{AllocError, Global};

// The locations of so many variables have numbers of 32 bits.
const MOST_VARIABLES: usize = 1 << 31;

/// Of each of so many points the variables of a function that are live there, in rising order, where it has `count` of them. Takes
/// time in proportion to the variables, the points and the pairs of a variable and a point where it is live. An error means that
/// there is no memory; more than 2^31 variables are taken to need more.
pub fn live_rows(
    alloc: Global,
    live: &Live,
    count: usize,
    points: usize,
) -> Result<Vec<Seq<u32>>, AllocError>
    requires { points < 2 ^ 32 }
    ensures long { IfOk result (λ rows. length rows.items ≡ points) }
    ensures rows { IfOk result (λ rows. AreLiveRows live.now count rows.items) }
{
    if count > MOST_VARIABLES {
        return Err(AllocError);
    }
    let mut rows = empty_rows(alloc, points)?;
    for variable in 0..count {
        add_variable(&mut rows, live, variable as u32)?;
    }
    Ok(rows)
}

// So many empty rows.
fn empty_rows(alloc: Global, points: usize) -> Result<Vec<Seq<u32>>, AllocError>
    ensures long { IfOk result (λ rows. length rows.items ≡ points) }
    ensures empty { IfOk result (λ rows. (point : ℕ) → row rows.items point ≡ []) }
{
    let mut rows = Vec::new(alloc);
    for _point in 0..points {
        rows.push(Seq::new(alloc))?;
    }
    Ok(rows)
}

// Adds a variable to the rows of the points at which it is live.
fn add_variable(rows: &mut Vec<Seq<u32>>, live: &Live, variable: u32) -> Result<(), AllocError>
    requires small { variable < 2 ^ 31 }
    requires few { length rows.old.items < 2 ^ 32 }
    requires rows { AreLiveRows live.now variable rows.old.items }
    ensures long { OnOk result (length rows.new.items ≡ length rows.old.items) }
    ensures rows { OnOk result (AreLiveRows live.now (variable + 1) rows.new.items) }
{
    let mut point = next_point(live, variable, 0, rows.len());
    while point < rows.len() {
        push_variable(rows, point, variable)?;
        point = next_point(live, variable, point + 1, rows.len());
    }
    Ok(())
}

// Adds a variable to the row of a point.
fn push_variable(rows: &mut Vec<Seq<u32>>, point: usize, variable: u32) -> Result<(), AllocError>
    requires { point < length rows.old.items }
    ensures { OnOk result (rows.new.items ≡ slice_set rows.old.items point (row rows.old.items point ++ variable ∷ [])) }
{
    rows[point].push(variable)?;
    Ok(())
}

// The first of so many points, from `from` on, at which the variable is live; their number where it is live at none of them.
fn next_point(live: &Live, variable: u32, from: usize, points: usize) -> usize
    requires small { variable < 2 ^ 31 }
    requires from { from ≤ points }
    requires few { points < 2 ^ 32 }
    ensures from { from ≤ result }
    ensures within { result ≤ points }
    ensures live { result < points → IsTrue (is_live live.now (Variable variable) result) }
    ensures none { (point : ℕ) → from ≤ point → point < result → IsTrue (is_live live.now (Variable variable) point) → ⊥ }
{
    match live.next(2 * variable, from as u32) {
        None => points,
        Some(point) => points.min(point as usize),
    }
}
