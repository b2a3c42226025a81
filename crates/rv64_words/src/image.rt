// What the machine runs.

use bril_tree::sequence::Seq;

/// The place of a guard: the number of its word in the image, and its function and item in the program.
#[derive(Clone, Copy, PartialEq, Eq, Debug, Drop)]
pub struct GuardAt {
    pub word: u32,
    pub func: u32,
    pub item: u32,
}

/// An image: its words, word j of which stands at pc 4·j, its guards, and the size of its stack in words
/// of 64 bits.
#[derive(Drop)]
pub struct Image {
    pub words: Seq<u32>,
    pub guards: Seq<GuardAt>,
    pub stack: u32,
}
