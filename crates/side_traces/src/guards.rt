// The guards that name side exits.

ghost use Rattle.std.specs.Prelude.{◌≡◌, ◌<◌, IfOk, OnOk, length};
ghost use Rattle.std.specs.List.{All};
ghost use Rattle.side_laws.specs.Sided.{retargeted, sided_items};
ghost use Rattle.side_traces.specs.Made.{HasGuardBelow};

use crate::exits::Exits;
use crate::lines::listed;
use bril_tree::function_tree::Item;
use bril_tree::name::Name;
use bril_tree::sequence::Seq;
use std::alloc::{AllocError, Global};

// Gives a guard another label.
fn retarget(alloc: Global, guard: &mut Item, label: &Name) -> Result<(), AllocError>
    ensures { OnOk result (guard.new ≡ retargeted label.now guard.old) }
{
    if let Item::Act { labels, .. } = guard {
        *labels = listed(alloc, label)?;
    }
    Ok(())
}

// Gives each paired guard the label of its side exit: from the last exit to the first, so that the first one of a guard counts.
fn retarget_all(alloc: Global, items: &mut Vec<Item>, exits: &Exits) -> Result<(), AllocError>
    requires { All (HasGuardBelow (length items.old.items)) exits.now }
    ensures { OnOk result (items.new.items ≡ sided_items exits.now 0 items.old.items) }
{
    let mut place = exits.len();
    while place > 0 {
        place -= 1;
        let exit = exits.exit(place);
        retarget(alloc, &mut items[exit.pair.guard as usize], exit.name)?;
    }
    Ok(())
}

/// The items, where each paired guard names the label of its side exit. The only error is out of memory.
pub(crate) fn retargeted(
    alloc: Global,
    items: Seq<Item>,
    exits: &Exits,
) -> Result<Seq<Item>, AllocError>
    requires { All (HasGuardBelow (length items)) exits.now }
    ensures { IfOk result (λ made. made ≡ sided_items exits.now 0 items) }
{
    let mut items = items.into_items();
    retarget_all(alloc, &mut items, exits)?;
    Ok(Seq::of_items(items))
}
