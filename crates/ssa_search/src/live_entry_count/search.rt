// The labels at which each of 64 locations is live.

ghost use Rattle.std.specs.Prelude.{◌≡◌, ◌⊎◌, ◌<◌, ◌≤◌, ◌+◌, ◌*◌, ◌^◌, ◌-◌, ◌↔◌, ◌++◌, ℕ, List, true, suc, length, map, slice_index, IfOk, OnOk};
ghost use Rattle.std.specs.List.{All, Contains};
ghost use Rattle.bril_tree.specs.declared.numbered.Instr.{Instr};
ghost use Rattle.graph_search.specs.Sets.{has_bit, seeds_of};
ghost use Rattle.ssa_search.specs.live_entry_count.Lanes.{AreAbove, AreLanesBefore, AreWordsOf, IsLaneOf, seed_of, with_lane};
ghost use Rattle.ssa_search.specs.accesses.Accesses.{AreBlocksOf};
ghost use Rattle.ssa_laws.specs.reaching_definitions.Told.{LeadToLabels};

use crate::accesses::Blocks;
use crate::live_entry_count::lanes::{LANES, Lanes};
use graph_search::{ReachedSets, Seed, one_bit};
use std::alloc::{AllocError, Global};

// Adds a seed with these bits for each of these nodes.
fn push_nodes(seeds: &mut Vec<Seed>, nodes: &[u32], bits: u64) -> Result<(), AllocError>
    ensures { OnOk result (seeds.new.items ≡ seeds.old.items ++ map (seed_of bits) nodes.now) }
{
    for node in nodes {
        seeds.push(Seed { node: *node, bits })?;
    }
    Ok(())
}

// Adds a seed of a lane for each of these nodes.
fn push_seeds(seeds: &mut Vec<Seed>, nodes: &[u32], lane: u32) -> Result<(), AllocError>
    requires { lane < 64 }
    ensures nodes { OnOk result ((n : ℕ) → All (λ seed. seed.node < n) seeds.old.items → All (λ node. node < n) nodes.now → All (λ seed. seed.node < n) seeds.new.items) }
    ensures kept { OnOk result ((k node : ℕ) → Contains (seeds_of k seeds.old.items) node → Contains (seeds_of k seeds.new.items) node) }
    ensures there { OnOk result ((node : ℕ) → Contains nodes.now node → Contains (seeds_of lane seeds.new.items) node) }
    ensures only { OnOk result ((k node : ℕ) → Contains (seeds_of k seeds.new.items) node → Contains (seeds_of k seeds.old.items) node ⊎ ((k ≡ lane) × Contains nodes.now node)) }
{
    push_nodes(seeds, nodes, one_bit(lane))?;
    Ok(())
}

// Writes these points for a lane, each at the head of its block.
fn write_points(lanes: &mut Lanes, heads: &[u32], points: &[u32], lane: u32)
    requires points { All (λ point. point < length heads.now) points.now }
    requires heads { All (λ head. head < length lanes.old.lows.items) heads.now }
    requires lane { lane < 64 }
    ensures heads { length lanes.new.lows.items ≡ length lanes.old.lows.items }
    ensures points { lanes.new.points.items ≡ with_lane (λ point. point) heads.now lane points.now lanes.old.points.items }
{
    for point in points {
        lanes.write(heads[*point as usize], lane, *point);
    }
}

// Takes these points of a lane out.
fn erase_points(lanes: &mut Lanes, heads: &[u32], points: &[u32], lane: u32)
    requires points { All (λ point. point < length heads.now) points.now }
    requires heads { All (λ head. head < length lanes.old.lows.items) heads.now }
    requires lane { lane < 64 }
    ensures heads { length lanes.new.lows.items ≡ length lanes.old.lows.items }
    ensures points { lanes.new.points.items ≡ with_lane (λ _. 4294967295) heads.now lane points.now lanes.old.points.items }
{
    for point in points {
        lanes.erase(heads[*point as usize], lane);
    }
}

// Writes the points and the seeds of a lane.
fn fill_lane(
    alloc: Global,
    blocks: &Blocks,
    lanes: &mut Lanes,
    seeds: &mut Vec<Seed>,
    base: u32,
    lane: u32,
) -> Result<(), AllocError>
    requires lane { lane < 64 }
    requires few { base + 64 < 2 ^ 32 }
    requires heads { length lanes.old.lows.items ≡ blocks.now.arcs.nodes }
    requires inside { All (λ seed. seed.node < blocks.now.arcs.nodes) seeds.old.items }
    requires before { AreLanesBefore blocks.now.heads.items blocks.now.accesses.exposed.list blocks.now.accesses.firsts.list base lane blocks.now.arcs.nodes lanes.old.points.items seeds.old.items }
    ensures heads { OnOk result (length lanes.new.lows.items ≡ length lanes.old.lows.items) }
    ensures inside { OnOk result (All (λ seed. seed.node < blocks.now.arcs.nodes) seeds.new.items) }
    ensures behind { OnOk result (AreLanesBefore blocks.now.heads.items blocks.now.accesses.exposed.list blocks.now.accesses.firsts.list base (suc lane) blocks.now.arcs.nodes lanes.new.points.items seeds.new.items) }
{
    let readers = blocks.accesses.exposed.items(alloc, base + lane)?;
    let points = blocks.accesses.firsts.items(alloc, base + lane)?;
    push_seeds(seeds, readers.as_slice(), lane)?;
    write_points(lanes, blocks.heads.as_slice(), points.as_slice(), lane);
    Ok(())
}

// Writes the points and the seeds of all lanes, whose locations have numbers from a base on.
fn fill(
    alloc: Global,
    blocks: &Blocks,
    lanes: &mut Lanes,
    base: u32,
) -> Result<Vec<Seed>, AllocError>
    requires few { base + 64 < 2 ^ 32 }
    requires heads { length lanes.old.lows.items ≡ blocks.now.arcs.nodes }
    requires above { AreAbove lanes.old.points.items blocks.now.arcs.nodes }
    ensures heads { IfOk result (λ seeds. length lanes.new.lows.items ≡ length lanes.old.lows.items) }
    ensures inside { IfOk result (λ seeds. All (λ seed. seed.node < blocks.now.arcs.nodes) seeds.items) }
    ensures filled { IfOk result (λ seeds. AreLanesBefore blocks.now.heads.items blocks.now.accesses.exposed.list blocks.now.accesses.firsts.list base 64 blocks.now.arcs.nodes lanes.new.points.items seeds.items) }
{
    let mut seeds = Vec::new(alloc);
    for lane in 0..LANES {
        fill_lane(alloc, blocks, lanes, &mut seeds, base, lane)?;
    }
    Ok(seeds)
}

// Takes the points of all lanes out.
fn take_out(alloc: Global, blocks: &Blocks, lanes: &mut Lanes, base: u32) -> Result<(), AllocError>
    requires few { base + 64 < 2 ^ 32 }
    requires heads { length lanes.old.lows.items ≡ blocks.now.arcs.nodes }
    requires filled { (lane : ℕ) → lane < 64 → IsLaneOf blocks.now.heads.items blocks.now.accesses.firsts.list (base + lane) lane blocks.now.arcs.nodes lanes.old.points.items }
    ensures heads { OnOk result (length lanes.new.lows.items ≡ length lanes.old.lows.items) }
    ensures above { OnOk result (AreAbove lanes.new.points.items blocks.now.arcs.nodes) }
{
    for lane in 0..LANES {
        let points = blocks.accesses.firsts.items(alloc, base + lane)?;
        erase_points(lanes, blocks.heads.as_slice(), points.as_slice(), lane);
    }
    Ok(())
}

// Notes at the heads of these points' blocks that no lane has a point there.
fn forget_points(lanes: &mut Lanes, heads: &[u32], points: &[u32])
    requires points { All (λ point. point < length heads.now) points.now }
    requires heads { All (λ head. head < length lanes.old.lows.items) heads.now }
    requires above { AreAbove lanes.old.points.items (length lanes.old.lows.items) }
    ensures heads { length lanes.new.lows.items ≡ length lanes.old.lows.items }
    ensures points { lanes.new.points.items ≡ lanes.old.points.items }
{
    for point in points {
        lanes.forget(heads[*point as usize]);
    }
}

// Notes at all heads where points were that no lane has a point there.
fn forget_all(
    alloc: Global,
    blocks: &Blocks,
    lanes: &mut Lanes,
    base: u32,
) -> Result<(), AllocError>
    requires few { base + 64 < 2 ^ 32 }
    requires heads { length lanes.old.lows.items ≡ blocks.now.arcs.nodes }
    requires above { AreAbove lanes.old.points.items blocks.now.arcs.nodes }
    ensures heads { OnOk result (length lanes.new.lows.items ≡ length lanes.old.lows.items) }
    ensures points { OnOk result (lanes.new.points.items ≡ lanes.old.points.items) }
{
    for lane in 0..LANES {
        let points = blocks.accesses.firsts.items(alloc, base + lane)?;
        forget_points(lanes, blocks.heads.as_slice(), points.as_slice());
    }
    Ok(())
}

// Makes the table have the labels at which the locations from a base on are live. Nothing is written for any lane before and behind.
pub(crate) fn search_lanes(
    alloc: Global,
    blocks: &Blocks,
    lanes: &mut Lanes,
    words: &mut ReachedSets,
    base: u32,
) -> Result<(), AllocError>
    requires few { base + 64 < 2 ^ 32 }
    requires heads { length lanes.old.lows.items ≡ blocks.now.arcs.nodes }
    requires above { AreAbove lanes.old.points.items blocks.now.arcs.nodes }
    requires nodes { words.old.nodes ≡ blocks.now.arcs.nodes }
    ensures heads { OnOk result (length lanes.new.lows.items ≡ length lanes.old.lows.items) }
    ensures above { OnOk result (AreAbove lanes.new.points.items blocks.now.arcs.nodes) }
    ensures nodes { words.new.nodes ≡ words.old.nodes }
    ensures words { OnOk result ((code : List Instr) → length code < 2 ^ 32 - 1 → LeadToLabels code → AreBlocksOf code blocks.now.heads.items blocks.now.arcs blocks.now.accesses.exposed.list blocks.now.accesses.firsts.list
        → AreWordsOf code base words.new.words) }
{
    let seeds = fill(alloc, blocks, lanes, base)?;
    words.search(&blocks.arcs, seeds.as_slice(), &*lanes)?;
    take_out(alloc, blocks, lanes, base)?;
    forget_all(alloc, blocks, lanes, base)?;
    Ok(())
}
