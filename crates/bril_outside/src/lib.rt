//! What a program reads from and writes to: files and sinks of bytes. Those over memory are exactly proved; those over the
//! system are proved safe, and the rest of them is tested.
//!
//! 1. What files and outputs promise: the traits `Files` and `Sink` (`src/files.rt`, `src/sink.rt`; `specs/Files.antt`,
//!    `specs/Sink.antt`).
//! 2. Both over memory (`src/mem_files.rt`, `src/stored_file.rt`, `src/mem_sink.rt`), and a sink that counts
//!    (`src/count_sink.rt`).
//! 3. Both over the system (`src/os_files.rt`, `src/os_sink.rt`): proved safe, true to their counts of faults, and to the
//!    bytes that a reader or a writer is known to have.
#![tactic(auto)]

pub mod count_sink;
pub mod files;
pub mod mem_files;
pub mod mem_sink;
pub mod os_files;
pub mod os_sink;
pub mod sink;
pub mod stored_file;
