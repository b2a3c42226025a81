// The layout of a function's code, by one sweep over its items.

ghost use Rattle.std.specs.Prelude.{◌≡◌, ◌<◌, ◌≤◌, ◌+◌, ◌*◌, ◌^◌, ◌-◌, ◌++◌, ◌∷◌, [], ℕ, Some, Option, IfOk, OnOk, length, slice_get, slice_index_or};
ghost use Rattle.bril_tree.specs.Operand.{Location};
ghost use Rattle.ssa_build.specs.code.Layout.{AreGetsBy, IsLaidBy, IsLaidSoFarBy, IsLayout, before_by, item_by, row_of, view_of};
ghost use Rattle.ssa_build.specs.code.Sweep.{falls_at, gets_before, goes_on, item_args, reached_at, sets_falling, sets_leaving, sets_to};
ghost use Rattle.ssa_search.specs.renaming.Gets.{AreGetsOf};
ghost use Rattle.ssa_search.specs.renaming.Tells.{TellsNow};
ghost use Rattle.ssa_laws.specs.reaching_definitions.Tables.{else_passed};
ghost use Rattle.ssa_laws.specs.reaching_definitions.Told.{argument, passed_by};

use crate::code::copies::{kept, push_gets, push_sets};
use crate::code::items::{at, laid_item};
use crate::code::layout::Layout;
use bril_tree::function_tree::Item;
use bril_tree::numbered::Instr;
use bril_tree::operation::Op;
use bril_tree::sequence::Seq;
use flow_graph::Graph;
use ssa_search::renaming::{WantedGet, begin, enter, pass};
use std::alloc::{AllocError, Global};

// The `get`s that are wanted behind a point.
fn row<'a>(layout: &Layout<'a>, point: usize) -> &'a [WantedGet]
    requires { point < 2 ^ 32 }
    ensures { result.now ≡ row_of layout.now point }
{
    let list = layout.list;
    let from = at(layout.starts, point) as usize;
    let to = at(layout.starts, point + 1) as usize;
    if from <= to && to <= list.len() {
        &list[from..to]
    } else {
        &[]
    }
}

// Adds the `get`s of a label that stays before a point.
fn push_gets_before(
    alloc: Global,
    code: &mut Seq<Item>,
    layout: &Layout<'_>,
    point: u32,
) -> Result<(), AllocError>
    ensures { OnOk result (code.new ≡ code.old ++ gets_before (view_of layout.now) point) }
{
    if point == 0 {
        return Ok(());
    }
    let vars = layout.func.vars.as_slice();
    let gets = kept(alloc, layout.find, row(layout, point as usize - 1))?;
    push_gets(alloc, code, vars, layout.names, gets.as_slice())
}

// Adds the `set`s of a label's `get`s that stay.
fn push_sets_to(
    alloc: Global,
    code: &mut Seq<Item>,
    layout: &Layout<'_>,
    now: &[u32],
    label: u32,
) -> Result<(), AllocError>
    ensures { OnOk result (code.new ≡ code.old ++ sets_to (view_of layout.now) now.now label) }
{
    let gets = kept(alloc, layout.find, row(layout, label as usize))?;
    push_sets(alloc, code, layout, now, gets.as_slice())
}

// Adds those of a label at a point, where that is entered from the point before it.
fn push_falling(
    alloc: Global,
    code: &mut Seq<Item>,
    layout: &Layout<'_>,
    now: &[u32],
    falls: bool,
    point: u32,
) -> Result<(), AllocError>
    ensures { OnOk result (code.new ≡ code.old ++ sets_falling (view_of layout.now) now.now falls point) }
{
    if !falls {
        return Ok(());
    }
    push_sets_to(alloc, code, layout, now, point)?;
    Ok(())
}

// Adds those of some labels.
fn push_leaving(
    alloc: Global,
    code: &mut Seq<Item>,
    layout: &Layout<'_>,
    now: &[u32],
    labels: &[u32],
) -> Result<(), AllocError>
    ensures { OnOk result (code.new ≡ code.old ++ sets_leaving (view_of layout.now) now.now labels.now) }
{
    for label in labels {
        push_sets_to(alloc, code, layout, now, *label)?;
    }
    Ok(())
}

// The labels for which `set`s stand before a point.
fn labels_at(rows: &[Seq<u32>], point: usize) -> &[u32]
    ensures { result.now ≡ slice_index_or rows.now point [] }
{
    if point < rows.len() {
        rows[point].as_slice()
    } else {
        &[]
    }
}

// The variables that an item names as arguments. Takes no memory.
fn args_of(item: &Instr) -> &[u32]
    ensures { result.now ≡ item_args (Some item.now) }
{
    match item {
        Instr::Act { args, .. } => args.as_slice(),
        _ => &[],
    }
}

// Whether control goes on from an item to the next one, and not by a label.
fn goes_on(item: &Instr) -> bool
    ensures { result ≡ goes_on (Some item.now) }
{
    match item {
        Instr::Act { op: Op::Jmp, .. } => false,
        Instr::Act { op: Op::Br, .. } => false,
        Instr::Act { op: Op::Ret, .. } => false,
        _ => true,
    }
}

// Whether walks lead to a point.
fn reached_at(graph: &Graph, point: u32) -> bool
    requires { point < length graph.now.sites }
    ensures { result ≡ reached_at (slice_get graph.now.sites point) }
{
    graph.reach(point)
}

// Whether control goes on to a point from the one before it, and not by a label; the first point is entered so.
fn falls_at(code: &[Instr], graph: &Graph, point: u32) -> bool
    requires points { length graph.now.sites ≡ length code.now + 1 }
    requires point { point ≤ length code.now }
    ensures { result ≡ falls_at code.now graph.now.sites point }
{
    if point == 0 {
        return true;
    }
    if !reached_at(graph, point - 1) {
        return false;
    }
    goes_on(&code[point as usize - 1])
}

// Adds what stands before an item.
fn push_before(
    alloc: Global,
    made: &mut Seq<Item>,
    layout: &Layout<'_>,
    now: &[u32],
    point: u32,
) -> Result<(), AllocError>
    requires layout { IsLayout layout.now }
    requires point { point ≤ length layout.now.func.now.code }
    ensures { OnOk result (made.new ≡ made.old ++ before_by layout.now now.now point) }
{
    let code = layout.func.code.as_slice();
    let falls = falls_at(code, layout.graph, point);
    let labels = labels_at(layout.rows, point as usize);
    push_gets_before(alloc, made, layout, point)?;
    push_falling(alloc, made, layout, now, falls, point)?;
    push_leaving(alloc, made, layout, now, labels)?;
    Ok(())
}

// What stands in place of an item of the function.
fn item_at(
    alloc: Global,
    layout: &Layout<'_>,
    now: &[u32],
    point: u32,
    item: Item,
) -> Result<Item, AllocError>
    requires layout { IsLayout layout.now }
    requires point { point < length layout.now.func.now.code }
    ensures { IfOk result (λ made. made ≡ item_by layout.now now.now point item) }
{
    let instr = &layout.func.code.as_slice()[point as usize];
    let reached = reached_at(layout.graph, point);
    let written = layout.func.args + point;
    let made = laid_item(alloc, layout, now, reached, written, args_of(instr), item)?;
    Ok(made)
}

// Adds what stands before an item, and what stands in its place.
fn lay_one(
    alloc: Global,
    made: &mut Seq<Item>,
    layout: &Layout<'_>,
    now: &[u32],
    point: u32,
    item: Item,
) -> Result<(), AllocError>
    requires layout { IsLayout layout.now }
    requires point { point < length layout.now.func.now.code }
    ensures { OnOk result (made.new ≡ made.old ++ (before_by layout.now now.now point ++ item_by layout.now now.now point item ∷ [])) }
{
    push_before(alloc, made, layout, now, point)?;
    let laid = item_at(alloc, layout, now, point, item)?;
    made.push(laid)?;
    Ok(())
}

// The array of definitions goes on past an item and the `get`s behind it.
fn go_on(now: &mut [u32], layout: &Layout<'_>, point: u32)
    requires layout { IsLayout layout.now }
    requires point { point < length layout.now.func.now.code }
    requires wide { length now.old ≡ 2 * length layout.now.func.now.vars }
    ensures { (known got : Location → Option ℕ) → AreGetsOf got (row_of layout.now point) → TellsNow known now.old → TellsNow (λ a. else_passed (got a) (passed_by (slice_get layout.now.func.now.code point) (layout.now.func.now.args + point) known a)) now.new }
{
    let code = layout.func.code.as_slice();
    let item = &code[point as usize];
    let gets = row(layout, point as usize);
    pass(now, item, layout.func.args + point);
    enter(now, gets);
}

// Lays out all items, with an array that tells the definitions where the function begins.
fn lay_all(
    alloc: Global,
    made: &mut Seq<Item>,
    now: &mut [u32],
    layout: &Layout<'_>,
    items: Seq<Item>,
) -> Result<(), AllocError>
    requires none { made.old ≡ [] }
    requires tells { TellsNow (argument layout.now.func.now.args) now.old }
    requires wide { length now.old ≡ 2 * length layout.now.func.now.vars }
    requires layout { IsLayout layout.now }
    requires items { length items ≡ length layout.now.func.now.code }
    ensures { OnOk result ((gets : ℕ → Location → Option ℕ) → AreGetsBy layout.now gets → IsLaidSoFarBy layout.now gets (length items) items made.new now.new) }
{
    let mut point = 0;
    for item in items.into_items() {
        lay_one(alloc, made, layout, now, point, item)?;
        go_on(now, layout, point);
        point += 1;
    }
    Ok(())
}

/// The code of a function in SSA form, which has these items, by names: each item under the names of definitions, the `get`s that
/// stay behind their labels, and `set`s before the items where edges leave. The only error is out of memory, which a function of
/// 2^32 variables or more is taken to have.
pub fn laid_code(
    alloc: Global,
    layout: &Layout<'_>,
    items: Seq<Item>,
) -> Result<Seq<Item>, AllocError>
    requires layout { IsLayout layout.now }
    requires items { length items ≡ length layout.now.func.now.code }
    ensures { IfOk result (λ made. (gets : ℕ → Location → Option ℕ) → AreGetsBy layout.now gets → IsLaidBy layout.now gets items made) }
{
    let func = layout.func;
    let vars = func.vars.as_slice();
    let code = func.code.as_slice();
    if vars.len() > u32::MAX as usize {
        return Err(AllocError);
    }
    let mut now = begin(alloc, func.args, vars.len() as u32)?;
    let mut made = Seq::new(alloc);
    lay_all(alloc, &mut made, now.as_mut_slice(), layout, items)?;
    let end = code.len() as u32;
    push_before(alloc, &mut made, layout, now.as_slice(), end)?;
    Ok(made)
}
