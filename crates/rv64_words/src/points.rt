// The points of an image: the words at which items begin, with the homes of what is live there.

use bril_tree::home::Home;
use bril_tree::sequence::Seq;
use bril_tree::types::Ty;

/// Where a variable is: its number in its function, from 0, its type, and its home.
#[derive(Clone, Copy, PartialEq, Eq, Debug, Drop)]
pub struct HomeAt {
    pub var: u32,
    pub ty: Ty,
    pub home: Home,
}

/// The number of the word in the image at which an item begins, its function and item in the program, and the homes of the
/// variables that are live there.
#[derive(Drop)]
pub struct PointAt {
    pub word: u32,
    pub func: u32,
    pub item: u32,
    pub homes: Seq<HomeAt>,
}

/// The points of an image.
#[derive(Drop)]
pub struct Points {
    pub points: Seq<PointAt>,
}
