// What a call that runs a machine answers.

use bril_tree::limits::End;
use rv64_words::trap::Trap;

/// What one step of a machine answers.
#[derive(Clone, Copy, PartialEq, Eq, Debug, Drop)]
pub enum MachAnswer {
    /// The word was executed, and the machine runs on.
    Go,
    /// The machine ended, now or earlier.
    End(End),
    /// A write failed, now or earlier.
    WriteFault,
    /// The machine can't go on, now or earlier.
    Trap(Trap),
}

/// What a run of a machine answers.
#[derive(Clone, Copy, PartialEq, Eq, Debug, Drop)]
pub enum RunAnswer {
    /// The machine ended, now or earlier.
    End(End),
    /// All steps were taken, and the machine runs on.
    Spent,
    /// A write failed, now or earlier.
    WriteFault,
    /// The machine can't go on, now or earlier.
    Trap(Trap),
}
