//! What the commands mean, and the stages that they share. What the stages of a command answer is proved to add up to what
//! the top call promises, once for every command.
//!
//! 1. What a command is (`specs/Command.antt`), a value for each of them (`specs/commands/`), and the table of all
//!    (`specs/Table.antt`).
//! 2. What a command comes to (`specs/Outcome.antt`), its stages in turn (`specs/Driver.antt`), its second file, which has
//!    the profile that the passes get (`specs/Profiles.antt`) or a script (`specs/Scripts.antt`), and the entries of a recorded
//!    run (`specs/Recording.antt`).
//! 3. The main theorem, which is of `run` (`specs/RunIsCorrect.antt`). It follows from the record `Promises`, of every
//!    command: what each status says (`specs/Answers.antt`), and when a command is done (`specs/When.antt`). For every
//!    command of this form what its stages answer adds up to that (`proofs/Promises.antt`).
//! 4. The stages: from files to their tree or bytes (`src/source.rt`), from a tree to its accepted program (`src/program.rt`), the
//!    values that words spell (`src/arguments.rt`), from the path of a profile to its entries (`src/profile.rt`) and from that of a
//!    script to its orders (`src/script.rt`), lists of
//!    passes (`src/list.rt`), and what a list makes with the profile that the words name (`src/making.rt`).
//! 5. The commands that make no image, and the run that `demo` records (`src/commands/`). What they put: `src/output.rt`.
#![tactic(auto)]

pub mod arguments;
pub mod commands;
pub mod list;
pub mod making;
pub mod output;
pub mod profile;
pub mod program;
pub mod script;
pub mod source;
