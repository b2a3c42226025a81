//! Liveness: which variables and shadows are live at each point of a function, exactly.
//!
//! A location is live at a point where a path leads from there to an item that reads it, past no item that assigns it. The
//! search of `graph_search` goes back from the items that read a location, over arcs that go from a point to where a branch
//! to it leaves: an abort leaves from the `speculate` whose speculation it ends, every other branch from its own item.
//!
//! On the way into SSA form liveness is found by two searches of its own, over blocks: the head of `ssa_search` says why.
//!
//! 1. The table of what is live (`src/live.rt`), and what it says (`TellsLive`, `specs/Liveness.antt`).
//! 2. The searches (`src/flow.rt`), and the arcs that they go over (`src/arcs.rt`).
//! 3. Sets of points (`src/points.rt`, `src/sorted.rt`).
#![tactic(auto)]

mod arcs;
mod flow;
mod live;
mod marked;
mod points;
mod sorted;

pub use flow::Flow;
pub use live::Live;
