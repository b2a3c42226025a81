// How far a script has come.

use bril_tree::limits::End;
use step_monitor::monitor::Monitor;

/// The monitor, and the number of the function in which it stopped last, `None` where it didn't stop.
#[derive(Drop)]
pub struct Progress {
    pub monitor: Monitor,
    pub func: Option<u32>,
}

/// What becomes of a script after an order.
#[derive(Clone, Copy, Drop)]
pub enum Went {
    /// The next order is carried out.
    On,
    /// None is: the program has ended so, or goes on after all its words, for `None`.
    Over(Option<End>),
}
