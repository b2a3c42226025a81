//! The command `monitor`: a script says where the machine that executes the image of an accepted program stops, and when the values of the
//! program's variables are written. It does exactly what its value in `bril_commands` says.
//!
//! 1. The command, from the program to what is put (`src/command.rt`), and the image of a program with its points (`src/image.rt`).
//! 2. The orders of a script, one after another (`src/orders.rt`): what they are carried out on (`src/target.rt`), how far they have come
//!    (`src/progress.rt`), and what that says of the script (`specs/Carried.antt`). A stop of the machine is one of the script's
//!    (`proofs/Calls.antt`), and each script comes to something (`proofs/Total.antt`).
//! 3. The numbers of the functions that a script names (`src/function_names.rt`), and the lines that are put (`src/lines.rt`).
#![tactic(auto)]

mod command;
mod function_names;
mod image;
mod lines;
mod orders;
mod progress;
mod target;

pub use command::monitor;
