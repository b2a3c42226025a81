//! The first fault of a program in words, with its place and its line.
//!
//! 1. What is wrong and what would mend it, in words (`src/problem.rt`, `src/assigned.rt`, `src/help.rt`;
//!    `specs/Words.antt`).
//! 2. The files are read, each once, and kept (`src/files.rt`, `src/kept.rt`; `specs/Kept.antt`, `specs/Files.antt`).
//! 3. What a fault points to (`src/target.rt`), and where that stands in them (`src/locate.rt`, `src/located.rt`;
//!    `specs/Target.antt`, `specs/Held.antt`, `specs/Locate.antt`).
//! 4. The message (`src/message.rt`, `specs/Message.antt`), and the call (`src/first_fault.rt`, `src/explanation.rt`;
//!    `specs/Explained.antt`).
//! 5. Runs that are counted (`src/counting.rt`, `specs/Executed.antt`), what lines mean (`src/lines.rt`,
//!    `src/meaning.rt`, `specs/Meaning.antt`), and the command line (`src/command.rt`, `specs/Command.antt`).
#![tactic(auto)]

mod assigned;
mod command;
mod counting;
mod explanation;
mod files;
mod first_fault;
mod help;
mod kept;
mod lines;
mod locate;
mod located;
mod meaning;
mod message;
mod problem;
mod target;

pub use command::answer;
pub use counting::count;
pub use first_fault::explain;
pub use lines::{ROWS, Row};
pub use meaning::tell_meaning;
