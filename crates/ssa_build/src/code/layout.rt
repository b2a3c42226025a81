// What the layout of a function's code is made by.

use bril_tree::name::Name;
use bril_tree::numbered_function::Func;
use bril_tree::sequence::Seq;
use flow_graph::Graph;
use ssa_search::renaming::WantedGet;

/// What a function's code in SSA form is laid out by: the function and its graph, the names of all definitions, and what stands for
/// each. For each point `starts` has where the wanted `get`s behind it begin in `list`, and `rows` the labels for which `set`s stand
/// before it.
#[derive(Clone, Copy, Drop)]
pub struct Layout<'a> {
    pub func: &'a Func,
    pub graph: &'a Graph,
    pub names: &'a [Name],
    pub find: &'a [u32],
    pub starts: &'a [u32],
    pub list: &'a [WantedGet],
    pub rows: &'a [Seq<u32>],
}
