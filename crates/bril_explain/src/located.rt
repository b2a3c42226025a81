// Where something stands in a file.

use bril_tree::bytes::Bytes;
use bril_tree::text::Text;

/// Where something stands in a file.
#[derive(Drop)]
pub enum Spot {
    /// At this byte of the source of the file, or at its end.
    Byte { source: Bytes, at: usize },
    /// At a function of the file, which is in JSON, or at an item of it.
    Keys { func: usize, item: Option<u32> },
    /// In the file.
    File,
}

/// The path of a file, and where something stands in it.
#[derive(Drop)]
pub struct Located {
    pub path: Text,
    pub spot: Spot,
}
