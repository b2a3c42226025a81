// A program's first fault, with the message on it.

use bril_report::Status;
use bril_tree::bytes::Bytes;

/// The status with which a program is refused, and the message on its fault.
#[derive(Drop)]
pub struct Explanation {
    pub status: Status,
    pub message: Bytes,
}
