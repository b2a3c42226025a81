// Rows of `get`s in one list.

ghost use Rattle.std.specs.Prelude.{◌≡◌, ◌≤◌, ◌<◌, ◌+◌, ◌^◌, ◌-◌, ◌++◌, ◌∷◌, [], length, IfOk, IfErr, OnOk};
ghost use Rattle.ssa_search.specs.gets.Rows.{gets_from};

use crate::renaming::WantedGet;
use std::alloc::{AllocError, Global};

// So many definitions are arguments and items. A sum from 2^32 on is taken to need more memory than there is, and no smaller
// one.
pub(crate) fn base_of(args: u32, items: usize) -> Result<u32, AllocError>
    requires { items < 2 ^ 32 }
    ensures sum { IfOk result (λ base. base ≡ args + items) }
    ensures fault { IfErr result (λ _. 2 ^ 32 ≤ args + items) }
{
    let items = items as u32;
    if args > u32::MAX - items {
        return Err(AllocError);
    }
    Ok(args + items)
}

// The definition of the `get` behind so many others. A number from 2^32 - 1 on is taken to need more memory than there is, and
// no smaller one.
fn definition_of(base: u32, count: usize) -> Result<u32, AllocError>
    ensures number { IfOk result (λ definition. definition ≡ base + count) }
    ensures few { IfOk result (λ definition. base + count + 1 < 2 ^ 32) }
    ensures fault { IfErr result (λ _. 2 ^ 32 ≤ base + count + 1) }
{
    if count >= (u32::MAX - base) as usize {
        return Err(AllocError);
    }
    Ok(base + count as u32)
}

// Adds a `get` of each of these locations.
fn push_gets(list: &mut Vec<WantedGet>, locations: &[u32], base: u32) -> Result<(), AllocError>
    requires { base + length list.old.items < 2 ^ 32 }
    ensures gets { OnOk result (list.new.items ≡ list.old.items ++ gets_from (base + length list.old.items) locations.now) }
    ensures few { OnOk result (base + length list.new.items < 2 ^ 32) }
{
    for location in locations {
        let definition = definition_of(base, list.len())?;
        list.push(WantedGet {
            location: *location,
            definition,
        })?;
    }
    Ok(())
}

// Adds the row of the next point, which has a `get` of each of these locations.
pub(crate) fn push_row(
    starts: &mut Vec<u32>,
    list: &mut Vec<WantedGet>,
    base: u32,
    locations: &[u32],
) -> Result<(), AllocError>
    requires few { base + length list.old.items < 2 ^ 32 }
    ensures few { OnOk result (base + length list.new.items < 2 ^ 32) }
    ensures starts { OnOk result (starts.new.items ≡ starts.old.items ++ length list.new.items ∷ []) }
    ensures gets { OnOk result (list.new.items ≡ list.old.items ++ gets_from (base + length list.old.items) locations.now) }
{
    push_gets(list, locations, base)?;
    starts.push(list.len() as u32)?;
    Ok(())
}
