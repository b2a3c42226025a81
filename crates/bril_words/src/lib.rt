//! The words of the command line, read by `clap`: what they ask for, or how they are misused.
//!
//! 1. What words ask for (`specs/CommandLine.antt`), which words `clap` takes for certain (`specs/Plain.antt`), and the
//!    commands as `clap` knows them (`specs/App.antt`).
//! 2. The commands, by what they work on, and a record of the words of each (`src/subcommands.rt`), what may stand after them
//!    (`src/options.rt`), and what `clap` is given of them (`src/builders.rt`).
//! 3. The words cut and given to `clap` (`src/words.rt`), and the numbers and lists of its matches (`src/values.rt`,
//!    `src/names.rt`).
//! 4. What comes of it: a request (`src/request.rt`) or a misuse (`src/misuse.rt`).
#![tactic(auto)]

mod builders;
mod misuse;
mod names;
mod options;
mod request;
mod subcommands;
mod values;
mod words;

pub use misuse::Misuse;
pub use names::names_of;
pub use options::Setting;
pub use request::{InterpretSettings, MachineSettings, RecordSettings, Request, RunSettings};
pub use subcommands::{
    Action, BytesAction, FileAction, PassesAction, ProgramAction, SourceAction, TreeAction,
};
pub use values::{CELLS, ENTRIES, FRAMES, HOT, STEPS};
pub use words::read_words;
