// The number of live entries of a function, counted exactly before anything is made of them.
//
// The search for the labels where a location is live goes for 64 locations at once (`src/live_entry_count/lanes.rt`, `src/live_entry_count/search.rt`,
// `specs/live_entry_count/Lanes.antt`), and the bits of the words that it leaves are counted for each entry of a label (`src/live_entry_count/count.rt`,
// `specs/live_entry_count/Counted.antt`).

mod count;
mod lanes;
mod search;

pub use count::count_live_entries;
