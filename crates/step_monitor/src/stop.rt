// What a call that runs a monitor answers.

use bril_tree::limits::End;
use rv64_words::trap::Trap;

/// Where a monitor stopped.
#[derive(Clone, Copy, PartialEq, Eq, Debug, Drop)]
pub enum Stop {
    /// Before the item of this function.
    Break { func: u32, item: u32 },
    /// The machine ended, now or earlier.
    End(End),
    /// All words were executed, and the machine runs on.
    Spent,
    /// A write failed, now or earlier.
    WriteFault,
    /// The machine can't go on, now or earlier.
    Trap(Trap),
}

/// An item: the numbers of its function and of itself there, from 0.
#[derive(Clone, Copy, PartialEq, Eq, Debug, Drop)]
pub struct Place {
    pub func: u32,
    pub item: u32,
}
