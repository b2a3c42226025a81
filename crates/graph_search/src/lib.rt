//! Search over any graph whose arcs may have labels. Found are exactly the nodes that paths reach from some seeds, along the
//! arcs that a gate opens.
//!
//! One search serves the analyses of a flow graph. Whether a point is reached: no arc has a label. Whether some walk to a
//! point leaves a variable unassigned: arcs from each point to the next ones, labelled with what the point's item assigns,
//! from the start. Whether a variable is live at a point: the same arcs turned round, with the same labels, from the items
//! that read the variable. The gate of the last two is shut to the variable's label.
//!
//! 1. Graphs by their arcs (`src/graph.rt`), arcs by node (`src/adjacency.rt`), and which arcs are open (`src/gate.rt`).
//! 2. The search (`src/reached.rt`), and 64 searches at once, with a word of bits for each node (`src/reached_sets.rt`).
//! 3. The words of nodes (`src/words.rt`, `src/bits.rt`), which nodes are still to be looked at (`src/pending.rt`), lists of
//!    marks (`src/marks.rt`), and which lists are short enough (`src/lengths.rt`).
#![tactic(auto)]

mod adjacency;
mod bits;
mod gate;
mod graph;
mod lengths;
mod marks;
mod pending;
mod reached;
mod reached_sets;
mod words;

pub use adjacency::Adjacency;
pub use bits::{all_bits, all_but, one_bit};
pub use gate::{Gate, Gates, OtherThan};
pub use graph::{Arc, ArcGraph};
pub use lengths::number_of_length;
pub use marks::is_marked;
pub use reached::Reached;
pub use reached_sets::{ReachedSets, Seed};
