// Behind which labels a location wants a `get`, on the way into SSA form: exactly the reached labels where it is live.
//
// A block begins at a label, or at the first item. The search goes over blocks, from those that read the location before
// they assign it, back over the edges to blocks that don't assign it before the edge leaves: so it takes time in proportion
// to the edges that it crosses, where a search over points would cross whole blocks.
//
// 1. Blocks, and where a `get` is wanted (`specs/placing/Wanted.antt`): where the location is live (`proofs/lemmas/placing/Wanted.antt`).
// 2. The graph of blocks (`specs/placing/Blocks.antt`) and the search (`src/placing/search.rt`, `proofs/lemmas/placing/Found.antt`).

mod blocks;
mod search;

pub use blocks::{block_arcs, heads, is_label_at};
pub use search::live_labels;
