// The operands of the wanted `get`s, by a sweep over all items.

ghost use Rattle.std.specs.Prelude.{◌≡◌, ◌≤◌, ◌<◌, ◌+◌, ◌*◌, ◌^◌, ◌-◌, ◌++◌, suc, IfOk, IfErr, OnOk, None, is_some, length, map};
ghost use Rattle.std.specs.List.{All};
ghost use Rattle.bril_tree.specs.Shape.{shape_fault_of};
ghost use Rattle.bril_tree.specs.Sites.{AreSitesSound};
ghost use Rattle.flow_graph.specs.Graph.{IsGraphOf};
ghost use Rattle.ssa_build.specs.trivial_phis.Trivial.{sources_of};
ghost use Rattle.ssa_search.specs.gets.Wants.{AreWantsOf, gets_of, row_of};
ghost use Rattle.ssa_build.specs.operands.Operands.{AreOperands, base_of};
ghost use Rattle.ssa_build.specs.sources.Sweeping.{AddsRow, AreEdgesOf, AreOperandsBefore, IsSweepable, entry_key, key_of, operand_of, told_at};
ghost use Rattle.ssa_search.specs.renaming.Tells.{TellsNow};
ghost use Rattle.ssa_laws.specs.reaching_definitions.Laws.{IsTabled};
ghost use Rattle.ssa_laws.specs.reaching_definitions.Told.{into_at};

use crate::trivial_phis::{Operand, Operands};
use bril_tree::numbered_function::Func;
use flow_graph::Graph;
use graph_search::{Adjacency, number_of_length};
use ssa_search::accesses::{Entry, label_entries};
use ssa_search::gets::Wants;
use ssa_search::renaming::{WantedGet, begin, enter, pass};
use std::alloc::{AllocError, Global};

// The place of a leave point in the order of the sweep: the start of the function first, and then its points.
fn key_of(leave: Option<u32>) -> u32
    requires { key_of leave < 2 ^ 32 }
    ensures { result ≡ key_of leave }
{
    match leave {
        None => 0,
        Some(point) => point + 1,
    }
}

// The places of all entries.
fn entry_keys(alloc: Global, entries: &[Entry]) -> Result<Vec<u32>, AllocError>
    requires { All (λ entry. entry_key entry < 2 ^ 32) entries.now }
    ensures { IfOk result (λ keys. keys.items ≡ map entry_key entries.now) }
{
    let mut keys = Vec::new(alloc);
    for entry in entries {
        keys.push(key_of(entry.leave))?;
    }
    Ok(keys)
}

// The entries in rows by where they leave. As many as 2^32 - 1 are taken to need more memory than there is.
fn leave_rows(alloc: Global, entries: &[Entry], keys: usize) -> Result<Adjacency, AllocError>
    requires few { keys ≤ 2 ^ 32 }
    requires within { All (λ entry. entry_key entry < keys) entries.now }
    ensures count { IfOk result (λ rows. rows.count ≡ keys) }
    ensures keys { IfOk result (λ rows. rows.keys ≡ map entry_key entries.now) }
{
    let list = entry_keys(alloc, entries)?;
    number_of_length(list.len())?;
    Adjacency::of(alloc, keys, list)
}

// Adds the operands that the `get`s behind a label have from the array.
fn push_operands(
    operands: &mut Vec<Operand>,
    gets: &[WantedGet],
    now: &[u32],
    base: u32,
) -> Result<(), AllocError>
    requires within { All (λ get. get.location < length now.now) gets.now }
    requires base { All (λ get. base ≤ get.definition) gets.now }
    ensures { OnOk result (operands.new.items ≡ operands.old.items ++ map (operand_of base now.now) gets.now) }
{
    for get in gets {
        operands.push(Operand {
            get: get.definition - base,
            from: now[get.location as usize],
        })?;
    }
    Ok(())
}

// Adds the operands that an edge's entry has from the array.
fn push_entry(
    operands: &mut Vec<Operand>,
    wants: &Wants,
    label: u32,
    now: &[u32],
    base: u32,
) -> Result<(), AllocError>
    requires label { label + 1 < length wants.now.starts }
    requires within { All (λ get. get.location < length now.now) wants.now.list }
    requires base { All (λ get. base ≤ get.definition) wants.now.list }
    ensures { OnOk result (operands.new.items ≡ operands.old.items ++ map (operand_of base now.now) (row_of wants.now label)) }
{
    push_operands(operands, wants.behind(label), now, base)
}

// Adds the operands of all entries with this key.
fn push_row(
    operands: &mut Vec<Operand>,
    rows: &Adjacency,
    entries: &[Entry],
    wants: &Wants,
    now: &[u32],
    base: u32,
    key: u32,
) -> Result<(), AllocError>
    requires rows { rows.now.keys ≡ map entry_key entries.now }
    requires key { key < rows.now.count }
    requires labels { All (λ entry. entry.label + 1 < length wants.now.starts) entries.now }
    requires within { All (λ get. get.location < length now.now) wants.now.list }
    requires base { All (λ get. base ≤ get.definition) wants.now.list }
    ensures { OnOk result (AddsRow entries.now wants.now now.now base key operands.old.items operands.new.items) }
{
    let mut end = rows.end(key);
    while end > 0 {
        let place = end - 1;
        let entry = entries[place as usize];
        push_entry(operands, wants, entry.label, now, base)?;
        end = rows.before(place);
    }
    Ok(())
}

// The operands as the loop over trivial `get`s takes them. As many as 2^32 - 1 are taken to need more memory than there is.
fn operand_rows(alloc: Global, gets: usize, list: Vec<Operand>) -> Result<Operands, AllocError>
    requires { All (λ operand. operand.get < gets) list.items }
    ensures gets { IfOk result (λ operands. operands.gets ≡ gets) }
    ensures list { IfOk result (λ operands. operands.list ≡ list.items) }
{
    number_of_length(list.len())?;
    Operands::of(alloc, gets, list)
}

// What the sweep knows: the entries, by where they leave, and the number of definitions that are no `get`s.
#[derive(Drop)]
struct Edges {
    entries: Vec<Entry>,
    rows: Adjacency,
    base: u32,
    ghost keys: { rows.keys ≡ map entry_key entries.items },
}

// The entries of a function, by where they leave.
fn edges_of(alloc: Global, func: &Func, graph: &Graph) -> Result<Edges, AllocError>
    requires few { length func.now.code < 2 ^ 32 - 1 }
    requires base { base_of func.now.code func.now.args < 2 ^ 32 }
    requires graph { IsGraphOf func.now.code graph.now }
    requires sound { AreSitesSound func.now.code }
    ensures { IfOk result (λ edges. AreEdgesOf func.now.code func.now.args edges.entries.items edges.rows.count edges.base) }
{
    let code = func.code.as_slice();
    let entries = label_entries(alloc, code, graph)?;
    let rows = leave_rows(alloc, entries.as_slice(), code.len() + 1)?;
    let base = func.args + code.len() as u32;
    Ok(Edges {
        entries,
        rows,
        base,
    })
}

// Adds the operands of the edges that leave at a place of the sweep, where the array tells of the locations.
fn leave(
    func: &Func,
    edges: &Edges,
    wants: &Wants,
    now: &[u32],
    operands: &mut Vec<Operand>,
    key: u32,
) -> Result<(), AllocError>
    requires key { key ≤ length func.now.code }
    requires sound { AreSitesSound func.now.code }
    requires edges { AreEdgesOf func.now.code func.now.args edges.now.entries.items edges.now.rows.count edges.now.base }
    requires wants { AreWantsOf func.now wants.now }
    requires tabled { IsTabled func.now.code func.now.args (gets_of wants.now) }
    requires long { length now.now ≡ 2 * length func.now.vars }
    requires tells { TellsNow (told_at func.now.code func.now.args (gets_of wants.now) key) now.now }
    requires before { AreOperandsBefore func.now.code func.now.args (gets_of wants.now) key operands.old.items }
    ensures { OnOk result (AreOperandsBefore func.now.code func.now.args (gets_of wants.now) (suc key) operands.new.items) }
{
    push_row(
        operands,
        &edges.rows,
        edges.entries.as_slice(),
        wants,
        now,
        edges.base,
        key,
    )?;
    Ok(())
}

// Goes on past an item and the `get`s behind it.
fn go_on(func: &Func, wants: &Wants, now: &mut [u32], point: u32)
    requires shaped { shape_fault_of (is_some func.now.ret) func.now.code ≡ None }
    requires point { point < length func.now.code }
    requires wants { AreWantsOf func.now wants.now }
    requires long { length now.old ≡ 2 * length func.now.vars }
    requires tells { TellsNow (into_at func.now.code func.now.args (gets_of wants.now) point) now.old }
    ensures { TellsNow (told_at func.now.code func.now.args (gets_of wants.now) (suc point)) now.new }
{
    let item = &func.code.as_slice()[point as usize];
    pass(now, item, func.args + point);
    enter(now, wants.behind(point));
}

// Adds the operands of the edges that leave behind the items, in order.
fn sweep_items(
    func: &Func,
    edges: &Edges,
    wants: &Wants,
    now: &mut [u32],
    operands: &mut Vec<Operand>,
) -> Result<(), AllocError>
    requires sweepable { IsSweepable func.now wants.now }
    requires edges { AreEdgesOf func.now.code func.now.args edges.now.entries.items edges.now.rows.count edges.now.base }
    requires long { length now.old ≡ 2 * length func.now.vars }
    requires tells { TellsNow (into_at func.now.code func.now.args (gets_of wants.now) 0) now.old }
    requires before { AreOperandsBefore func.now.code func.now.args (gets_of wants.now) 1 operands.old.items }
    ensures { OnOk result (AreOperandsBefore func.now.code func.now.args (gets_of wants.now) (suc (length func.now.code)) operands.new.items) }
{
    for point in 0..func.code.as_slice().len() {
        go_on(func, wants, now, point as u32);
        leave(func, edges, wants, now, operands, point as u32 + 1)?;
    }
    Ok(())
}

// The operands of all edges, as a list.
fn swept(
    alloc: Global,
    func: &Func,
    edges: &Edges,
    wants: &Wants,
) -> Result<Vec<Operand>, AllocError>
    requires sweepable { IsSweepable func.now wants.now }
    requires edges { AreEdgesOf func.now.code func.now.args edges.now.entries.items edges.now.rows.count edges.now.base }
    ensures { IfOk result (λ operands. AreOperandsBefore func.now.code func.now.args (gets_of wants.now) (suc (length func.now.code)) operands.items) }
{
    let mut operands = Vec::new(alloc);
    let mut now = begin(alloc, func.args, variable_count(func)?)?;
    leave(func, edges, wants, now.as_slice(), &mut operands, 0)?;
    sweep_items(func, edges, wants, now.as_mut_slice(), &mut operands)?;
    Ok(operands)
}

// The number of variables. More than 2^32 - 1 are taken to need more memory than there is, and no fewer.
fn variable_count(func: &Func) -> Result<u32, AllocError>
    ensures count { IfOk result (λ count. count ≡ length func.now.vars) }
    ensures fault { IfErr result (λ _. 2 ^ 32 ≤ length func.now.vars) }
{
    let count = func.vars.as_slice().len();
    if count > u32::MAX as usize {
        return Err(AllocError);
    }
    Ok(count as u32)
}

/// What each wanted `get` of a function is set from, over all edges that lead to its label; the start of the function leads to its
/// first item, and brings the arguments. Takes time and memory in proportion to the items and the operands. The only error is want of
/// memory, which a function is taken to have with 2^32 - 1 operands or more, or as many entries of labels, or 2^32 variables or more.
pub fn operands_of(
    alloc: Global,
    func: &Func,
    graph: &Graph,
    wants: &Wants,
) -> Result<Operands, AllocError>
    requires sweepable { IsSweepable func.now wants.now }
    requires graph { IsGraphOf func.now.code graph.now }
    ensures operands { IfOk result (AreOperands func.now.code func.now.args (gets_of wants.now)) }
    ensures gets { IfOk result (λ operands. operands.gets ≡ length wants.now.list) }
    ensures within { IfOk result (λ operands. All (λ from. from < base_of func.now.code func.now.args + operands.gets) (sources_of operands)) }
{
    let edges = edges_of(alloc, func, graph)?;
    let list = swept(alloc, func, &edges, wants)?;
    let operands = operand_rows(alloc, wants.list().len(), list)?;
    Ok(operands)
}
