// Laws of walks. Each function states some, and does nothing when it is called.

ghost use Rattle.flow_graph.specs.Laws.{ReachedHaveFirstWalk, FirstWalksAreOne, SoundWalksAgree, GraphsHaveAllEdges, EdgesLeave, LeavingAreEdges};

/// Each point that walks lead to has one first walk, and where the open sites fail nowhere all walks to a point have
/// the open sites of its first walk.
pub fn walks_agree()
    ensures first { ReachedHaveFirstWalk }
    ensures one { FirstWalksAreOne }
    ensures agree { SoundWalksAgree }
{}

/// Where the open sites fail nowhere, a graph has exactly the edges of its function. Each of them is a branch that leaves
/// where the edge does, an abort from the `speculate` whose speculation it ends, and each branch that leaves from a
/// point to which walks lead is one of them.
pub fn edges_leave()
    ensures all { GraphsHaveAllEdges }
    ensures branch { EdgesLeave }
    ensures edge { LeavingAreEdges }
{}
