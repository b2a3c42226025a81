// The number of live entries of a function.

ghost use Rattle.std.specs.Prelude.{◌≡◌, ◌<◌, ◌+◌, ◌^◌, ◌-◌, IfOk, None, is_some, length, min};
ghost use Rattle.std.specs.Int.RustNames.{count_ones};
ghost use Rattle.std.specs.List.{All};
ghost use Rattle.bril_tree.specs.Shape.{shape_fault_of};
ghost use Rattle.bril_tree.specs.Sites.{AreSitesSound};
ghost use Rattle.flow_graph.specs.Graph.{IsGraphOf};
ghost use Rattle.ssa_laws.specs.live_entries.LiveEntries.{TellsLiveEntries};
ghost use Rattle.ssa_search.specs.live_entry_count.Counted.{AreWords, CountsTo, ones_in};
ghost use Rattle.ssa_search.specs.accesses.Accesses.{AreBlocksOf};
ghost use Rattle.ssa_search.specs.accesses.Entries.{AreEntriesOf};

use crate::accesses::{Blocks, Entry, blocks_of, label_entries, location_count};
use crate::live_entry_count::lanes::{LANES, Lanes};
use crate::live_entry_count::search::search_lanes;
use bril_tree::numbered_function::Func;
use flow_graph::Graph;
use graph_search::ReachedSets;
use std::alloc::{AllocError, Global};

// How many bits of a word are 1.
fn ones_of(word: u64) -> u64
    ensures count { result ≡ count_ones word }
    ensures fits { word < 2 ^ 64 }
{
    word.count_ones() as u64
}

// The number of bits of the words of all entries' labels, or 2^64 - 1 where it is greater.
fn count_words(entries: &[Entry], words: &ReachedSets) -> u64
    requires { All (λ entry. entry.label < words.now.nodes) entries.now }
    ensures count { result ≡ min (ones_in words.now.words entries.now) 18446744073709551615 }
    ensures words { AreWords words.now.words entries.now }
{
    let mut count: u64 = 0;
    for entry in entries {
        count = count.saturating_add(ones_of(words.word(entry.label)));
    }
    count
}

// Counts the live entries of the locations with numbers below a bound, up to 2^64 - 1. It goes in steps of 64 locations, so it may
// count those of a few numbers from the bound on, which are no location's where the bound is above all of them.
fn count_locations(
    alloc: Global,
    func: &Func,
    blocks: &Blocks,
    entries: &[Entry],
    locations: u32,
) -> Result<u64, AllocError>
    requires few { length func.now.code < 2 ^ 32 - 1 }
    requires locations { locations + 128 < 2 ^ 32 }
    requires blocks { AreBlocksOf func.now.code blocks.now.heads.items blocks.now.arcs blocks.now.accesses.exposed.list blocks.now.accesses.firsts.list }
    requires entries { AreEntriesOf func.now.code entries.now }
    ensures { IfOk result (λ told. CountsTo func.now.code locations told) }
{
    let mut lanes = Lanes::new(alloc, blocks.arcs.nodes())?;
    let mut words = ReachedSets::new(alloc, blocks.arcs.nodes())?;
    let mut count: u64 = 0;
    let mut base = 0;
    while base < locations {
        search_lanes(alloc, blocks, &mut lanes, &mut words, base)?;
        count = count.saturating_add(count_words(entries, &words));
        base += LANES;
    }
    Ok(count)
}

/// The number of live entries of a function whose items have the shapes of their operations and whose open sites are sound, or
/// 2^64 - 1 where it is greater. Takes memory in proportion to the items, their arguments and the variables, and time in proportion to
/// these and, for each 64 locations, to the edges. The only error is want of memory, which a function is taken to have that has
/// 2^31 - 65 variables or more, or where `blocks_of` takes it to be lacking.
pub fn count_live_entries(alloc: Global, func: &Func, graph: &Graph) -> Result<u64, AllocError>
    requires shaped { shape_fault_of (is_some func.now.ret) func.now.code ≡ None }
    requires few { length func.now.code < 2 ^ 32 - 1 }
    requires graph { IsGraphOf func.now.code graph.now }
    requires sound { AreSitesSound func.now.code }
    ensures { IfOk result (TellsLiveEntries func.now.code) }
{
    let locations = location_count(func.vars.as_slice().len())?;
    let blocks = blocks_of(alloc, func, graph)?;
    let entries = label_entries(alloc, func.code.as_slice(), graph)?;
    let count = count_locations(alloc, func, &blocks, entries.as_slice(), locations)?;
    Ok(count)
}
