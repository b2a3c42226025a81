// A file as it is written.

use crate::function_tree::FuncTree;
use crate::import::Import;
use crate::sequence::Seq;

/// A file: its imports and its functions, both in order.
#[derive(Drop)]
pub struct Tree {
    pub imports: Seq<Import>,
    pub funcs: Seq<FuncTree>,
}
