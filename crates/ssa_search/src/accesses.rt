// What the blocks of a function read and assign, and which edges lead to labels, on the way into SSA form.
//
// 1. Of each location the blocks that read it before they assign it, and the first point of each block that assigns it
//    (`src/accesses/accesses.rt`): what the search for the labels where the location is live begins from, and where it ends.
// 2. The entries of labels: each leave point of each label once (`src/accesses/entries.rt`).
// 3. How many locations there are (`src/accesses/locations.rt`).

mod accesses;
mod blocks;
mod entries;
mod locations;

pub use accesses::BlockAccesses;
pub use blocks::{Blocks, blocks_of};
pub use entries::{Entry, distinct, label_entries};
pub(crate) use locations::location_count;
