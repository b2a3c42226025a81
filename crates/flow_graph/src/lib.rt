//! The flow graph of a function, exactly: its edges, the points to which walks lead, and their open speculation sites; and of
//! each item what it reads, what it assigns and where control goes from it.
//!
//! 1. Numbers of locations, and what an item assigns (`src/location.rt`); reads and assignments by location (`src/reads.rt`,
//!    `src/accesses.rt`).
//! 2. Where control goes from an item (`src/branches.rt`), and the edges, with the points where they leave (`src/edges.rt`).
//! 3. First walks to points (`src/search.rt`, `src/visits.rt`).
//! 4. The open sites of the first walk, and where sites fail (`src/open_sites.rt`, `src/sites.rt`).
//! 5. All of it for a function (`src/graph.rt`).
#![tactic(auto)]

mod accesses;
mod branches;
mod edges;
mod graph;
mod laws;
mod location;
mod open_sites;
mod reads;
mod search;
mod sites;
mod visits;

pub use accesses::AccessLists;
pub use branches::{Branch, Branches, branches_of};
pub use bril_tree::edge::Edge;
pub use graph::{Graph, GraphFault};
pub use laws::{edges_leave, walks_agree};
pub use location::{assigned_number, point_number, shadow_number, variable_number};
pub use reads::{Access, all_reads, item_reads};
