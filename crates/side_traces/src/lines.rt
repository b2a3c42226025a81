// The lines of a side exit.

ghost use Rattle.std.specs.Prelude.{◌≡◌, ◌<◌, ◌++◌, ◌∷◌, [], IfOk, OnOk, length, slice_get};
ghost use Rattle.pass_edit_laws.specs.plan.Lines.{jmp_line, listed_item};
ghost use Rattle.side_laws.specs.Sided.{exit_lines, kept_lines};
ghost use Rattle.side_traces.specs.Exits.{exit_of};

use crate::exits::Exit;
use bril_tree::function_tree::Item;
use bril_tree::name::Name;
use bril_tree::operation::Op;
use bril_tree::sequence::Seq;
use std::alloc::{AllocError, Global};

/// One name as a list. The only error is out of memory.
pub(crate) fn listed(alloc: Global, name: &Name) -> Result<Seq<Name>, AllocError>
    ensures { IfOk result (λ names. names ≡ name.now ∷ []) }
{
    let mut names = Seq::new(alloc);
    names.push(name.copied(alloc)?)?;
    Ok(names)
}

// A jump to the label.
fn jmp(alloc: Global, label: &Name) -> Result<Item, AllocError>
    ensures { IfOk result (λ made. made ≡ jmp_line label.now) }
{
    Ok(Item::Act {
        dest: None,
        op: Op::Jmp,
        args: Seq::new(alloc),
        funcs: Seq::new(alloc),
        labels: listed(alloc, label)?,
    })
}

// Adds the item at a point, where there is one.
fn push_item(
    alloc: Global,
    lines: &mut Seq<Item>,
    code: &[Item],
    point: u32,
) -> Result<(), AllocError>
    ensures { OnOk result (lines.new ≡ lines.old ++ listed_item (slice_get code.now point)) }
{
    if let Some(item) = code.get(point as usize) {
        lines.push(item.copied(alloc)?)?;
    }
    Ok(())
}

// Adds the items at these points.
fn push_kept(
    alloc: Global,
    lines: &mut Seq<Item>,
    code: &[Item],
    kept: &[u32],
) -> Result<(), AllocError>
    ensures { OnOk result (lines.new ≡ lines.old ++ kept_lines (slice_get code.now) kept.now) }
{
    for point in kept {
        push_item(alloc, lines, code, *point)?;
    }
    Ok(())
}

/// Adds the lines of a side exit of a function that has these items, and labels of these names: its label, the items that are kept, and
/// the jump to its other label. The only error is out of memory.
pub(crate) fn push_exit(
    alloc: Global,
    lines: &mut Seq<Item>,
    code: &[Item],
    labels: &[Name],
    exit: &Exit<'_>,
) -> Result<(), AllocError>
    requires { exit.now.pair.other < length labels.now }
    ensures { OnOk result (lines.new ≡ lines.old ++ exit_lines (slice_get code.now) labels.now (exit_of exit.now)) }
{
    lines.push(Item::Label(exit.name.copied(alloc)?))?;
    push_kept(alloc, lines, code, exit.pair.kept)?;
    lines.push(jmp(alloc, &labels[exit.pair.other as usize])?)?;
    Ok(())
}
