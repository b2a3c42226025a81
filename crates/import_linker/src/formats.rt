// The tree that the bytes of a file read as, in the format that its path names.

mod fault;
mod format;
mod reading;

pub use fault::{ReadFault, TreeFault};
pub use format::Format;
pub use reading::read_tree;
