// The points of a program: the words at which the items begin at which a monitor may stop, and what is live there.

ghost use Rattle.std.specs.Prelude.{◌≡◌, ◌↔◌, ◌+◌, ◌<◌, ◌≤◌, ℕ, IsTrue, IsSome, List, length, IfOk, OnOk};
ghost use Rattle.std.specs.List.{AllZip};
ghost use Rattle.bril_tree.specs.Accepted.{IsAccepted};
ghost use Rattle.bril_tree.specs.Size.{IsCounted};
ghost use Rattle.bril_tree.specs.Step.{code_of};
ghost use Rattle.bril_tree.specs.Typing.{variable_type};
ghost use Rattle.bril_tree.specs.Walk.{IsReached};
ghost use Rattle.bril_tree.specs.declared.numbered.Instr.{Instr};
ghost use Rattle.flow_graph.specs.Graph.{IsGraphOf};
ghost use Rattle.live_sets.specs.Liveness.{TellsLive};
ghost use Rattle.rv64_emit.specs.Placed.{all_homes, homes_in};
ghost use Rattle.rv64_emit.specs.PointLists.{AreHomesFor, ArePointsBefore, AreTyped, IsHomeFor};
ghost use Rattle.rv64_emit.specs.Tables.{SlotsFit, table_at};
ghost use Rattle.rv64_emit_laws.specs.Homes.{homes_of};
ghost use Rattle.rv64_emit_laws.specs.layout.Homes.{variable_home};
ghost use Rattle.rv64_emit_laws.specs.layout.Image.{entry_at};
ghost use Rattle.rv64_image_laws.specs.ProgramPoints.{ArePointsOf};
ghost use Rattle.rv64_words.specs.Points as stops;
ghost use Rattle.rv64_words.specs.Region.{most_words};
ghost use Rattle.shadow_place.specs.Placement.{TellsLiveIn};

use crate::homes::{ProgramHomes, SlotHomes};
use crate::live_variables::live_rows;
use crate::places::{place, tables_of};
use bril_tree::numbered::Instr;
use bril_tree::numbered_function::Func;
use bril_tree::operation::Op;
use bril_tree::program::Prog;
use bril_tree::sequence::Seq;
use bril_tree::types::Ty;
use flow_graph::Graph;
use live_sets::Live;
use rv64_words::points::{HomeAt, PointAt, Points};
use slot_code::Slots;
use std::alloc::{AllocError, Global};

// ---- homes

// The type of a variable, where it has one.
fn variable_type(func: &Func, variable: u32) -> Option<Ty>
    ensures { result ≡ variable_type func.now.vars variable }
{
    match func.vars.as_slice().get(variable as usize) {
        None => None,
        Some(v) => v.ty,
    }
}

// Where a variable is that has a type.
fn home_at(homes: &SlotHomes<'_>, func: &Func, variable: u32) -> HomeAt
    requires { IsSome (variable_type func.now.vars variable) }
    ensures { IsHomeFor (variable_home (homes_in homes.now)) func.now.vars variable result }
{
    match variable_type(func, variable) {
        None => unreachable!(),
        Some(ty) => HomeAt {
            var: variable,
            ty,
            home: homes.variable(variable),
        },
    }
}

// Where variables are that have types, in their order.
fn homes_at(
    alloc: Global,
    homes: &SlotHomes<'_>,
    func: &Func,
    variables: &[u32],
) -> Result<Seq<HomeAt>, AllocError>
    requires { AreTyped func.now.vars variables.now }
    ensures { IfOk result (AreHomesFor (variable_home (homes_in homes.now)) func.now.vars variables.now (length variables.now)) }
{
    let mut all = Seq::new(alloc);
    for variable in variables {
        all.push(home_at(homes, func, *variable))?;
    }
    Ok(all)
}

// ---- points

// Whether a monitor stops at an item: at each but labels and `nop`.
fn is_stop(item: &Instr) -> bool
    ensures { result ≡ stops.is_stop item.now }
{
    match item {
        Instr::Label(_) => false,
        Instr::Const { .. } => true,
        Instr::Act { op, .. } => *op != Op::Nop,
    }
}

// Whether the item at a point of a function has a point in the image: a monitor stops there, and some walk leads there.
fn has_point(graph: &Graph, point: u32, item: &Instr) -> bool
    requires { point < length graph.now.sites }
    ensures { (code : List Instr) → IsGraphOf code graph.now → IsTrue result ↔ (IsTrue (stops.is_stop item.now) × IsReached code point) }
{
    is_stop(item) && graph.reach(point)
}

// Adds the points of the function of a number, whose items begin at these entries.
fn push_points(
    alloc: Global,
    points: &mut Seq<PointAt>,
    prog: &Prog,
    number: usize,
    homes: &ProgramHomes<'_>,
    live: &Live,
    entries: &[u32],
) -> Result<(), AllocError>
    requires accepted { IsAccepted prog.now }
    requires counted { IsCounted prog.now }
    requires inside { number < length prog.now.funcs }
    requires live { TellsLive (code_of prog.now number) live.now }
    requires some { 0 < length entries.now }
    requires few { (k : ℕ) → table_at entries.now k ≤ most_words }
    ensures { OnOk result ((entry : ℕ → ℕ → ℕ) → ((k : ℕ) → table_at entries.now k ≡ entry number k)
        → ArePointsBefore (homes_of (all_homes homes.now)) entry prog.now number 0 points.old
        → ArePointsBefore (homes_of (all_homes homes.now)) entry prog.now (number + 1) 0 points.new) }
{
    let func = &prog.funcs.as_slice()[number];
    let code = func.code.as_slice();
    let graph = Graph::of_sound(alloc, func)?;
    let rows = live_rows(alloc, live, func.vars.as_slice().len(), code.len())?;
    let own = homes.in_function(number as u32);
    for (item, instruction) in code.iter().enumerate() {
        if has_point(&graph, item as u32, instruction) {
            let word = place(entries, item as u32);
            let live_homes = homes_at(alloc, &own, func, rows[item].as_slice())?;
            points.push(PointAt {
                word,
                func: number as u32,
                item: item as u32,
                homes: live_homes,
            })?;
        }
    }
    Ok(())
}

/// The points of an accepted program, by the homes of its slots and by what is live in each function: one for each item other than
/// a label and `nop` that some walk leads to, in order. Takes time in proportion to the items, the variables and the pairs of a
/// variable and a point where it is live. An error means that there is no memory.
pub fn points_of(
    alloc: Global,
    prog: &Prog,
    homes: &ProgramHomes<'_>,
    slots: &Slots,
    lives: &[Live],
) -> Result<Points, AllocError>
    requires accepted { IsAccepted prog.now }
    requires counted { IsCounted prog.now }
    requires functions { length slots.now.funcs ≡ length prog.now.funcs }
    requires fits { SlotsFit (all_homes homes.now) slots.now }
    requires lives { AllZip TellsLiveIn prog.now.funcs lives.now }
    ensures { IfOk result (ArePointsOf (homes_of (all_homes homes.now)) (entry_at (all_homes homes.now) slots.now) prog.now) }
{
    let tables = tables_of(alloc, homes, slots)?;
    let mut points = Seq::new(alloc);
    for (number, entries) in tables.entries.as_slice().iter().enumerate() {
        push_points(
            alloc,
            &mut points,
            prog,
            number,
            homes,
            &lives[number],
            entries.as_slice(),
        )?;
    }
    Ok(Points { points })
}
