// What is known of a function whose locations are placed.

use bril_tree::numbered_function::Func;
use flow_graph::Graph;
use live_sets::Live;
use slot_code::SlotFunction;

/// A function, its graph, its code over slots, and what is live in it.
#[derive(Clone, Copy, Drop)]
pub struct Analyses<'a> {
    pub func: &'a Func,
    pub graph: &'a Graph,
    pub lowered: &'a SlotFunction,
    pub live: &'a Live,
}
