// An edge of a flow graph.

/// An edge from one point of a function to another; a point is the number of an item or, at the end, the number of
/// items. It leaves at the point `leave`: for the abort of a guard that is the `speculate` whose speculation it ends,
/// for every other edge its own item.
#[derive(Clone, Copy, PartialEq, Eq, Debug, Drop)]
pub struct Edge {
    pub from: u32,
    pub leave: u32,
    pub to: u32,
}
