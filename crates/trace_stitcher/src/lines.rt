// The lines of a trace.

ghost use Rattle.std.specs.Prelude.{◌≡◌, ◌+◌, ◌<◌, ◌≤◌, ◌^◌, ◌++◌, ◌∷◌, [], ℕ, IfOk, None, OnOk, length, map, slice_get};
ghost use Rattle.bril_tree.specs.declared.function_tree.Item.TheVariants as item;
ghost use Rattle.trace_laws.specs.lines.Lines.{TraceNames, args_in, bool_type, guard_line, leg_lines, not_line, trace_lines};
ghost use Rattle.pass_edit_laws.specs.plan.Lines.{jmp_line, listed_item};
ghost use Rattle.trace_paths.specs.Path.{Turn};
ghost use Rattle.trace_paths.specs.Walked.{leg_of};
ghost use Rattle.trace_stitcher.specs.Legs.{AreGuardNames, nots_behind, one_leg};
ghost use Rattle.trace_stitcher.specs.Sources.{AreNamesOf, item_of};

use crate::fresh_names::not_base;
use bril_tree::function_tree::{Dest, Item, copied_names};
use bril_tree::name::Name;
use bril_tree::operation::Op;
use bril_tree::sequence::Seq;
use bril_tree::types::{Base, Ty};
use pass_make::TakenNames;
use std::alloc::{AllocError, Global};
use trace_paths::Leg;

// ---- items of a trace

// An operation that names nothing.
fn plain(alloc: Global, op: Op) -> Item
    ensures { result ≡ item.Act None op [] [] [] }
{
    Item::Act {
        dest: None,
        op,
        args: Seq::new(alloc),
        funcs: Seq::new(alloc),
        labels: Seq::new(alloc),
    }
}

// One name as a list.
fn listed(alloc: Global, name: &Name) -> Result<Seq<Name>, AllocError>
    ensures { IfOk result (λ names. names ≡ name.now ∷ []) }
{
    let mut names = Seq::new(alloc);
    names.push(name.copied(alloc)?)?;
    Ok(names)
}

// A jump to the label.
fn jmp(alloc: Global, label: &Name) -> Result<Item, AllocError>
    ensures { IfOk result (λ made. made ≡ jmp_line label.now) }
{
    Ok(Item::Act {
        dest: None,
        op: Op::Jmp,
        args: Seq::new(alloc),
        funcs: Seq::new(alloc),
        labels: listed(alloc, label)?,
    })
}

// A guard on these arguments, by which a failed trace goes to the label.
fn guard(alloc: Global, args: Seq<Name>, bail: &Name) -> Result<Item, AllocError>
    ensures { IfOk result (λ made. made ≡ guard_line args bail.now) }
{
    Ok(Item::Act {
        dest: None,
        op: Op::Guard,
        args,
        funcs: Seq::new(alloc),
        labels: listed(alloc, bail)?,
    })
}

// The type of a condition.
fn bool_type() -> Ty
    ensures { result ≡ bool_type }
{
    Ty {
        depth: 0,
        base: Base::Bool,
    }
}

// The bool that isn't that of these arguments.
fn not(alloc: Global, name: Name, args: Seq<Name>) -> Item
    ensures { result ≡ not_line bool_type name args }
{
    Item::Act {
        dest: Some(Dest {
            name,
            ty: bool_type(),
        }),
        op: Op::Not,
        args,
        funcs: Seq::new(alloc),
        labels: Seq::new(alloc),
    }
}

// ---- all lines

// What the lines of a trace are made by: the items of its function, the names of the function's variables, the number of its entry,
// and the label to which a failed guard goes.
#[derive(Clone, Copy, Drop)]
struct LineSource<'a, 't> {
    code: &'a [Item],
    variables: &'a TakenNames<'t>,
    number: u32,
    bail: &'a Name,
}

// The arguments of the item at a point; none where there is no such item.
fn args_at(alloc: Global, code: &[Item], point: u32) -> Result<Seq<Name>, AllocError>
    ensures { IfOk result (λ args. args ≡ args_in (slice_get code.now point)) }
{
    match code.get(point as usize) {
        Some(Item::Act { args, .. }) => copied_names(alloc, args.as_slice()),
        _ => Ok(Seq::new(alloc)),
    }
}

// Adds the item at a point, where there is one.
fn push_straight(
    alloc: Global,
    lines: &mut Seq<Item>,
    code: &[Item],
    point: u32,
) -> Result<(), AllocError>
    ensures { OnOk result (lines.new ≡ lines.old ++ listed_item (slice_get code.now point)) }
{
    if let Some(item) = code.get(point as usize) {
        lines.push(item.copied(alloc)?)?;
    }
    Ok(())
}

// Adds the guard for a branch that took its first label.
fn push_taken(
    alloc: Global,
    lines: &mut Seq<Item>,
    source: &LineSource<'_, '_>,
    point: u32,
) -> Result<(), AllocError>
    ensures { OnOk result (lines.new ≡ lines.old ++ guard_line (args_in (item_of source.now point)) source.now.bail.now ∷ []) }
{
    let args = args_at(alloc, source.code, point)?;
    lines.push(guard(alloc, args, source.bail)?)?;
    Ok(())
}

// Adds the `not`, under this name, and the guard for a branch that took its second label.
fn push_passed(
    alloc: Global,
    lines: &mut Seq<Item>,
    source: &LineSource<'_, '_>,
    point: u32,
    name: Name,
) -> Result<(), AllocError>
    ensures { OnOk result (lines.new ≡ lines.old ++ not_line bool_type name (args_in (item_of source.now point)) ∷ guard_line (name ∷ []) source.now.bail.now ∷ []) }
{
    let args = listed(alloc, &name)?;
    lines.push(not(alloc, name, args_at(alloc, source.code, point)?))?;
    lines.push(guard(alloc, args, source.bail)?)?;
    Ok(())
}

// Adds the lines of a branch with its choice, and gives the number of the next `not`, from 0.
fn push_branch(
    alloc: Global,
    lines: &mut Seq<Item>,
    source: &LineSource<'_, '_>,
    point: u32,
    choice: bool,
    nots: u32,
) -> Result<u32, AllocError>
    requires { nots < 2 ^ 31 }
    ensures next { IfOk result (λ next. next ≡ nots_behind nots (Turn point choice)) }
    ensures lines { OnOk result ((names : TraceNames) → AreNamesOf source.now names → lines.new ≡ lines.old ++ one_leg (item_of source.now) names nots (Turn point choice)) }
{
    if choice {
        push_taken(alloc, lines, source, point)?;
        return Ok(nots);
    }
    let base = not_base(alloc, source.number, nots + 1)?;
    let name = source.variables.fresh(alloc, base)?;
    push_passed(alloc, lines, source, point, name)?;
    Ok(nots + 1)
}

// Adds the lines of an item that a path lays, and gives the number of the next `not`.
fn push_leg(
    alloc: Global,
    lines: &mut Seq<Item>,
    source: &LineSource<'_, '_>,
    leg: Leg,
    nots: u32,
) -> Result<u32, AllocError>
    requires { nots < 2 ^ 31 }
    ensures next { IfOk result (λ next. next ≡ nots_behind nots (leg_of leg)) }
    ensures lines { OnOk result ((names : TraceNames) → AreNamesOf source.now names → lines.new ≡ lines.old ++ one_leg (item_of source.now) names nots (leg_of leg)) }
{
    match leg {
        Leg::Straight(point) => {
            push_straight(alloc, lines, source.code, point)?;
            Ok(nots)
        }
        Leg::Choice(point, choice) => {
            let next = push_branch(alloc, lines, source, point, choice, nots)?;
            Ok(next)
        }
    }
}

// Adds the lines of the items that a path lays.
fn push_legs(
    alloc: Global,
    lines: &mut Seq<Item>,
    source: &LineSource<'_, '_>,
    legs: &[Leg],
) -> Result<(), AllocError>
    requires { length legs.now ≤ 256 }
    ensures { OnOk result ((names : TraceNames) → AreNamesOf source.now names → lines.new ≡ lines.old ++ leg_lines bool_type (item_of source.now) names 0 (map leg_of legs.now)) }
{
    let mut nots = 0;
    for leg in legs {
        nots = push_leg(alloc, lines, source, *leg, nots)?;
    }
    Ok(())
}

/// The lines of a trace that lays these items of the code and goes on at the label `stop`, for the entry of this number.
/// A failed guard goes to `bail`, behind which the old code follows. The only error is out of memory.
pub(crate) fn trace_lines(
    alloc: Global,
    code: &[Item],
    legs: &[Leg],
    variables: &TakenNames<'_>,
    number: u32,
    bail: Name,
    stop: &Name,
) -> Result<Seq<Item>, AllocError>
    requires { length legs.now ≤ 256 }
    ensures { IfOk result (λ lines. (names : TraceNames) → AreGuardNames variables.now number bail names → names.stop ≡ stop.now → lines ≡ trace_lines bool_type (slice_get code.now) names (map leg_of legs.now)) }
{
    let mut lines = Seq::new(alloc);
    lines.push(plain(alloc, Op::Speculate))?;
    let source = LineSource {
        code,
        variables,
        number,
        bail: &bail,
    };
    push_legs(alloc, &mut lines, &source, legs)?;
    lines.push(plain(alloc, Op::Commit))?;
    lines.push(jmp(alloc, stop)?)?;
    lines.push(Item::Label(bail))?;
    Ok(lines)
}
