//! Laws alone: the image that `rv64_emit` makes of an accepted program does what the program does.
//!
//! The image is the one that `layout` defines, of the code over slots that `slot_code::lower` makes, by any homes of
//! locations, registers or words of frames, that serve. The proof relates the states of the program to those of the machine:
//! the machine is before the words of the newest frame's item, and holds the frames, the blocks of memory and the counts of
//! guards. Of the newest frame it holds what its point needs, each location at its home, and of each open speculation what
//! its guards may have to give back; of frames that wait it holds what is live after their calls. Each item's words lead from
//! related states to related states, within the cost of a step, and come to no item's first word before.
//!
//! 1. The image (`layout`): the words of each item by the homes of its slots (`specs/layout/Items.antt`, `Homes.antt`) and of arguments
//!    (`Passing.antt`), where items and functions begin, and the whole (`Image.antt`). Each item's words are at its entry, within its
//!    bound, for any homes that are registers or words of the frame.
//! 2. Where locations are (`specs/Homes.antt`), and when the machine is at an item (`specs/Entered.antt`).
//! 3. How the states of a program and of the machine are related (`proofs/Relation.antt`); the other files of `proofs/` have
//!    one kind of item each.
//! 4. One count of words for each step of the program (`proofs/Counting.antt`), by which the image implements the program, and its
//!    machine is at items exactly where the program is (`proofs/Rising.antt`, `AtItems.antt`, `Meeting.antt`); so it shows the program
//!    at points (`proofs/Showing.antt`). The laws are in `specs/Laws.antt` and `src/laws.rt`.
#![tactic(auto)]

mod laws;
pub mod layout;

pub use laws::{images_implement_programs, images_meet_items, images_show_points};
