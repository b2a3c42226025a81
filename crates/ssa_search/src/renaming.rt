// The state of a sweep over the items of a function, on the way into SSA form: which definition each location has, in one array
// that follows the tables of definitions past items of each kind.
//
// 1. What the array tells (`specs/renaming/Tells.antt`): at least what is known, and anything of other locations.
// 2. Past each item and the `get`s behind a label it goes on to tell it (`src/renaming/now.rt`, `proofs/lemmas/renaming/Passing.antt`, `Entering.antt`).
// 3. So it tells the tables of a function, from item to item (`specs/renaming/Swept.antt`).

mod laws;
mod now;

pub use laws::sweep_tells_tables;
pub use now::{WantedGet, begin, enter, pass};
