//! The command line of Roolvist as a library: what its words ask for is done, and the exit status says how it ended. The
//! contract of `bril_top` is the main theorem.
//!
//! 1. The main theorem, and that nothing is refused without a cause (`src/top.rt`).
//! 2. How a command line ends, also where the system gives no words (`src/end.rt`).
#![tactic(auto)]

pub mod end;
pub mod top;
