// The bound of a program.

ghost use Rattle.std.specs.Prelude.{◌≡◌, ◌+◌, IfOk, min};
ghost use Rattle.bril_tree.specs.Accepted.{IsAccepted};
ghost use Rattle.bril_tree.specs.Size.{IsCounted};
ghost use Rattle.pass_make.specs.Edited.{TellsBound};
ghost use Rattle.side_laws.specs.Sided.{IsSideBound};
ghost use Rattle.side_traces.specs.Made.{added_by};

use bril_tree::program::Prog;
use side_pairs::{Pairs, paired_guards};
use std::alloc::{AllocError, Global};

// How many items there are with the side exits of these pairs, from a number of items on: for each pair its kept items and two more;
// or 2^64 - 1 where that is greater.
fn added_items(items: u64, pairs: &Pairs) -> u64
    ensures { result ≡ min (items + added_by pairs.now) 18446744073709551615 }
{
    let mut bound = items;
    for place in 0..pairs.len() {
        bound = bound.saturating_add(pairs.pair(place).kept.len() as u64 + 2);
    }
    bound
}

/// The number of items of the program and, for each paired guard, its kept items and two more; or 2^64 - 1 where that is greater. The
/// only error is out of memory.
pub(crate) fn side_bound(alloc: Global, prog: &Prog) -> Result<u64, AllocError>
    requires accepted { IsAccepted prog.now }
    requires counted { IsCounted prog.now }
    ensures { IfOk result (TellsBound (IsSideBound prog.now)) }
{
    let mut bound = prog.size();
    for func in prog.funcs.as_slice() {
        let pairs = paired_guards(alloc, func)?;
        bound = added_items(bound, &pairs);
    }
    Ok(bound)
}
