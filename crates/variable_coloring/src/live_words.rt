// Where variables are live, for the 64 of a block at once.

ghost use Rattle.std.specs.Prelude.{◌≡◌, ◌<◌, ◌*◌, ◌^◌, ℕ, Bool, List, map, slice_index, true, IfOk, OnOk};
ghost use Rattle.std.specs.List.{All};
ghost use Rattle.bril_tree.specs.declared.numbered.Instr.{Instr};
ghost use Rattle.graph_search.specs.declared.graph.Arc.{Arc};
ghost use Rattle.variable_coloring.specs.LiveWords.{AreFound, AreOfItems, HasPoints, TellLive};

use crate::live_flow::LiveFlow;
use crate::windows::Window;
use graph_search::{Arc, Gate, Reached, ReachedSets, Seed};
use std::alloc::{AllocError, Global};

// For each point a word, whose bits are the variables of a block that are live there, and the points at which some are.
#[derive(Drop)]
pub(crate) struct LiveWords {
    pub sets: ReachedSets,
    pub reached: Reached,
}

// The gate that is open to the arcs that go to points whose words aren't 0.
#[derive(Clone, Copy, Drop)]
struct ToLive<'a> {
    sets: &'a ReachedSets,
    points: usize,
    ghost are: { sets.now.nodes ≡ points },
}

impl<'a> Gate for ToLive<'a> {
    ghost use Rattle.variable_coloring.specs.LiveWords.{goes_to_live};

    ghost opens = { λ gate arc. goes_to_live gate.sets.now.words gate.points arc };

    fn is_open(&self, arc: Arc) -> bool {
        (arc.to as usize) < self.points && self.sets.word(arc.to) != 0
    }
}

// The nodes of seeds.
fn nodes_of(alloc: Global, seeds: &[Seed]) -> Result<Vec<u32>, AllocError>
    ensures { IfOk result (λ nodes. nodes.items ≡ map (λ seed. seed.node) seeds.now) }
{
    let mut nodes = Vec::new(alloc);
    for seed in seeds {
        nodes.push(seed.node)?;
    }
    Ok(nodes)
}

// Finds the points whose words aren't 0, which were found from these seeds.
fn find_points(
    alloc: Global,
    flow: &LiveFlow,
    sets: &ReachedSets,
    reached: &mut Reached,
    seeds: &[Seed],
) -> Result<(), AllocError>
    requires sets { sets.now.nodes ≡ flow.now.arcs.nodes }
    requires points { reached.old.nodes ≡ flow.now.arcs.nodes }
    requires seeds { All (λ seed. seed.node < flow.now.arcs.nodes) seeds.now }
    ensures points { reached.new.nodes ≡ reached.old.nodes }
    ensures within { OnOk result (All (λ point. point < flow.now.arcs.nodes) reached.new.found) }
    ensures there { OnOk result ((opens : ℕ → Arc → Bool) → AreFound flow.now.arcs.arcs seeds.now opens sets.now.words → HasPoints sets.now.words reached.new.found) }
{
    let nodes = nodes_of(alloc, seeds)?;
    let gate = ToLive {
        sets,
        points: flow.arcs.nodes(),
    };
    reached.search(&flow.arcs, nodes.as_slice(), &gate)?;
    Ok(())
}

impl LiveWords {
    // No word of any point yet.
    pub(crate) fn new(alloc: Global, points: usize) -> Result<LiveWords, AllocError>
        ensures sets { IfOk result (λ live. live.sets.nodes ≡ points) }
        ensures points { IfOk result (λ live. live.reached.nodes ≡ points) }
    {
        Ok(LiveWords {
            sets: ReachedSets::new(alloc, points)?,
            reached: Reached::new(alloc, points)?,
        })
    }

    // Finds where the variables of a block are live.
    pub(crate) fn find(
        &mut self,
        alloc: Global,
        flow: &LiveFlow,
        block: u32,
    ) -> Result<(), AllocError>
        requires block { block < 2 ^ 26 }
        requires sets { self.old.sets.nodes ≡ flow.now.arcs.nodes }
        requires points { self.old.reached.nodes ≡ flow.now.arcs.nodes }
        ensures sets { self.new.sets.nodes ≡ self.old.sets.nodes }
        ensures points { self.new.reached.nodes ≡ self.old.reached.nodes }
        ensures within { OnOk result (All (λ point. point < flow.now.arcs.nodes) self.new.reached.found) }
        ensures live { OnOk result ((code : List Instr) → AreOfItems code flow.now.reads.items flow.now.arcs → TellLive code block self.new.sets.words) }
        ensures there { OnOk result (HasPoints self.new.sets.words self.new.reached.found) }
    {
        let window = 2 * block;
        let seeds = flow.seeds(alloc, window)?;
        let gates = Window { number: window };
        self.sets.search(&flow.arcs, seeds.as_slice(), &gates)?;
        find_points(alloc, flow, &self.sets, &mut self.reached, seeds.as_slice())?;
        Ok(())
    }
}
