// The table of constants of a function: what its variables and shadows hold in all runs, as far as this is known, and which
// of its points are reached. It is found by sparse conditional constant propagation (Wegman and Zadeck, "Constant
// Propagation with Conditional Branches", 1991); a location has one entry for the whole function.
//
// 1. What is known of a location (`specs/constants/Known.antt`, `src/constants/known.rt`).
// 2. What an item gives by what is known (`specs/constants/Answer.antt`, `src/constants/answer.rt`), and where it leads (`specs/constants/Ways.antt`).
// 3. Consistent tables, and the least of them (`specs/constants/Consistent.antt`), and how one is kept (`specs/constants/Kept.antt`).
// 4. Two work lists, of points and of locations (`specs/constants/Work.antt`, `src/constants/work.rt`), and the table that they come to
//    (`src/constants/const_table.rt`).

mod answer;
mod const_table;
mod known;
mod work;

pub(crate) use const_table::table_in;
pub use const_table::{ConstTable, table};
pub use known::Known;
