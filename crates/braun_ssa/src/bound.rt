// The bound of the pass on the items of its result.

ghost use Rattle.std.specs.Prelude.{◌≡◌, ◌+◌, ◌*◌, IfOk, min};
ghost use Rattle.braun_ssa.specs.Bound.{TellsEntries};
ghost use Rattle.bril_tree.specs.Accepted.{IsAccepted};
ghost use Rattle.bril_tree.specs.Size.{IsCounted};
ghost use Rattle.pass_make.specs.Edited.{TellsBound};
ghost use Rattle.ssa_form_laws.specs.form.Numbers.{IsSsaBound};

use bril_tree::program::Prog;
use flow_graph::Graph;
use ssa_search::live_entry_count::count_live_entries;
use std::alloc::{AllocError, Global};

// The number of live entries of an accepted program, or 2^64 - 1 where it is greater. Want of memory is the only error.
fn live_entries(alloc: Global, prog: &Prog) -> Result<u64, AllocError>
    requires accepted { IsAccepted prog.now }
    requires counted { IsCounted prog.now }
    ensures { IfOk result (TellsEntries prog.now.funcs) }
{
    let mut count: u64 = 0;
    for func in prog.funcs.as_slice() {
        let graph = Graph::of_sound(alloc, func)?;
        count = count.saturating_add(count_live_entries(alloc, func, &graph)?);
    }
    Ok(count)
}

// The sum of items and two for each entry, or 2^64 - 1 where it is greater.
fn bound_by(items: u64, entries: u64) -> u64
    ensures { result ≡ min (items + 2 * entries) 18446744073709551615 }
{
    items.saturating_add(entries).saturating_add(entries)
}

// The items of an accepted program and two for each live entry, or 2^64 - 1 where they are more. Want of memory is the only error.
pub(crate) fn ssa_bound(alloc: Global, prog: &Prog) -> Result<u64, AllocError>
    requires accepted { IsAccepted prog.now }
    requires counted { IsCounted prog.now }
    ensures { IfOk result (TellsBound (IsSsaBound prog.now)) }
{
    let entries = live_entries(alloc, prog)?;
    Ok(bound_by(prog.size(), entries))
}
