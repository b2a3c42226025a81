// One file in memory.

use bril_tree::bytes::Bytes;
use bril_tree::text::Text;

/// A path and the bytes that are there.
#[derive(Drop)]
pub struct StoredFile {
    pub path: Text,
    pub bytes: Bytes,
}
