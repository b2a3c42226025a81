//! What is found in a function on its way into SSA form: where it wants phis, exactly, and how many copies they take.
//!
//! 1. What its blocks read before they assign it, and assign first (`accesses`; `specs/accesses/Accesses.antt`;
//!    `src/accesses/accesses.rt`, `blocks.rt`), and the entries of its labels: each leave point once
//!    (`specs/accesses/Entries.antt`, `src/accesses/entries.rt`).
//! 2. Placing phis: after which labels a location wants a `get`, exactly the reached ones where it is live (`placing`;
//!    `specs/placing/Wanted.antt`). Where blocks begin, with the arcs between them (`src/placing/blocks.rt`), and the search
//!    over them (`src/placing/search.rt`).
//! 3. All `get`s of a function (`gets`; `AreWantsOf`, `specs/gets/Wants.antt`): the labels, location by location
//!    (`src/gets/found.rt`), rows of `get`s in one list (`rows.rt`), and both together (`wants.rt`).
//! 4. Renaming: one sweep over the items follows which definition each location has, in an array (`renaming`;
//!    `src/renaming/now.rt`; `TellsNow`, `specs/renaming/Tells.antt`, and past the `get`s after a label `Gets.antt`).
//! 5. The number of live entries, counted by words of 64 locations before anything is made (`live_entry_count`;
//!    `src/live_entry_count/lanes.rt`, `search.rt`, `count.rt`).
//!
//! Three searches find where locations are live, and none can stand for another. That of `live_sets` goes over points, since
//! passes and placement ask for each point: it takes time in proportion to the points that it finds. Phis are placed by one over
//! blocks, which finds labels alone and crosses a block in one step; over points it would take as long as there are items times
//! variables. The count asks for numbers alone, of programs too that have far more live entries than SSA form may have copies:
//! by one location at a time it would take as long as there are entries to count, by words of 64 it takes a sixty-fourth; but
//! words look at every label, also where few locations are live, so they don't serve to place phis.
#![tactic(auto)]

pub mod accesses;
pub mod gets;
pub mod live_entry_count;
pub mod placing;
pub mod renaming;
