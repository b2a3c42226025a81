// What an interpreter answers.

use bril_tree::limits;

/// What a call that steps an interpreter answers.
#[derive(Clone, Copy, PartialEq, Eq, Debug, Drop)]
pub enum StepAnswer {
    /// The steps were made, and the run goes on.
    Go,
    /// The run ended, now or earlier.
    End(limits::End),
    /// A write failed, now or earlier.
    WriteFault,
    /// Memory was wanting for a step, which was not made.
    Memory,
}

/// Where a run stands: the newest frame's function, its point, which is the number of an item or, at the function's
/// end, the number of items, and how many saves the frame has, which stays at `u32::MAX`. In an accepted program no frame
/// has more than eight.
#[derive(Clone, Copy, PartialEq, Eq, Debug, Drop)]
pub struct Here {
    pub func: u32,
    pub item: u32,
    pub depth: u32,
}
