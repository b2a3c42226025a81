// The items of a function with what is put between them, by one sweep.

ghost use Rattle.std.specs.Prelude.{◌≡◌, ◌<◌, ◌≤◌, ◌+◌, ◌++◌, ◌∷◌, [], IfOk, OnOk, length, map};
ghost use Rattle.bril_tree.specs.declared.function_tree.Item.TheVariants as variant;
ghost use Rattle.pass_edit_laws.specs.plan.Spliced.{spliced};
ghost use Rattle.trace_stitcher.specs.Inserted.{around, row};

use crate::inserted::Inserted;
use bril_tree::function_tree::Item;
use bril_tree::name::Name;
use bril_tree::sequence::Seq;
use std::alloc::{AllocError, Global};

// Adds labels of these names.
fn push_labels(alloc: Global, made: &mut Seq<Item>, names: &[Name]) -> Result<(), AllocError>
    ensures { OnOk result (made.new ≡ made.old ++ map variant.Label names.now) }
{
    for name in names {
        made.push(Item::Label(name.copied(alloc)?))?;
    }
    Ok(())
}

// Adds these items, once more.
fn push_lines(alloc: Global, made: &mut Seq<Item>, lines: &[Item]) -> Result<(), AllocError>
    ensures { OnOk result (made.new ≡ made.old ++ lines.now) }
{
    for line in lines {
        made.push(line.copied(alloc)?)?;
    }
    Ok(())
}

// Adds an item with what stands before and behind it.
fn push_around(
    alloc: Global,
    made: &mut Seq<Item>,
    inserted: &Inserted,
    point: usize,
    item: Item,
) -> Result<(), AllocError>
    requires before { point < length inserted.now.before.items }
    requires behind { point < length inserted.now.behind.items }
    ensures { OnOk result (made.new ≡ made.old ++ (map variant.Label (row inserted.now.before.items point) ++ item ∷ row inserted.now.behind.items point)) }
{
    push_labels(alloc, made, inserted.before[point].as_slice())?;
    made.push(item)?;
    push_lines(alloc, made, inserted.behind[point].as_slice())?;
    Ok(())
}

// Adds items, each with what stands before and behind it.
fn push_all(
    alloc: Global,
    made: &mut Seq<Item>,
    inserted: &Inserted,
    items: Seq<Item>,
) -> Result<(), AllocError>
    requires before { length inserted.now.before.items ≡ length items + 1 }
    requires behind { length inserted.now.behind.items ≡ length items }
    ensures { OnOk result (made.new ≡ made.old ++ around (λ i. map variant.Label (row inserted.now.before.items i)) (row inserted.now.behind.items) 0 items) }
{
    let mut point = 0;
    for item in items.into_items() {
        push_around(alloc, made, inserted, point, item)?;
        point += 1;
    }
    Ok(())
}

/// The items with what is put between them. The only error is out of memory.
pub(crate) fn spliced(
    alloc: Global,
    inserted: &Inserted,
    items: Seq<Item>,
) -> Result<Seq<Item>, AllocError>
    requires before { length inserted.now.before.items ≡ length items + 1 }
    requires behind { length inserted.now.behind.items ≡ length items }
    ensures { IfOk result (λ made. made ≡ spliced (λ i. map variant.Label (row inserted.now.before.items i)) (row inserted.now.behind.items) 0 items) }
{
    let end = items.as_slice().len();
    let mut made = Seq::new(alloc);
    push_all(alloc, &mut made, inserted, items)?;
    push_labels(alloc, &mut made, inserted.before[end].as_slice())?;
    Ok(made)
}
