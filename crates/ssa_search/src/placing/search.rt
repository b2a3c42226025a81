// Behind which labels `get`s of a location are wanted.

ghost use Rattle.std.specs.Prelude.{◌≡◌, ◌<◌, OnOk};
ghost use Rattle.std.specs.List.{All};
ghost use Rattle.ssa_search.specs.placing.Blocks.{FindsLiveLabels, opens_at};

use graph_search::{Arc, ArcGraph, Gate, Reached};
use std::alloc::AllocError;

// The first point of each block, by the block's label, that assigns the location; above all points where none does.
#[derive(Clone, Copy, Drop)]
struct FirstPoints<'a> {
    points: &'a [u32],
}

impl<'a> Gate for FirstPoints<'a> {
    ghost opens = { λ first arc. opens_at first.points.now arc };

    fn is_open(&self, arc: Arc) -> bool {
        let first = match self.points.get(arc.to as usize) {
            None => 0,
            Some(point) => *point,
        };
        match arc.label {
            None => true,
            Some(point) => point < first,
        }
    }
}

/// Finds the reached labels at which a location is live.
///
/// `blocks` has an arc from each label back to the label of each block from which an edge to it leaves, and the arc's label is
/// the point where the edge leaves. `seeds` has the labels of the blocks that read the location before they assign it, and
/// `first` the first point of each block, by its label, that assigns the location, which is above all points where none
/// does.
///
/// Takes time in proportion to the arcs of what is found. After an error, for want of memory, nothing is told of what was
/// found.
pub fn live_labels(
    reached: &mut Reached,
    blocks: &ArcGraph,
    seeds: &[u32],
    first: &[u32],
) -> Result<(), AllocError>
    requires nodes { reached.old.nodes ≡ blocks.now.nodes }
    requires seeds { All (λ seed. seed < blocks.now.nodes) seeds.now }
    ensures nodes { reached.new.nodes ≡ reached.old.nodes }
    ensures found { OnOk result (FindsLiveLabels blocks.now.arcs seeds.now first.now reached.new.found) }
{
    let gate = FirstPoints { points: first };
    reached.search(blocks, seeds, &gate)?;
    Ok(())
}
