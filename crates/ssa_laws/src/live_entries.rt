// Laws alone: how many copies a form with a copy on each edge pays for, the live entries of a function.
//
// A live entry is a leave point, a label that an edge joins to it, and a location that is live at the label
// (`specs/live_entries/LiveEntries.antt`). There is exactly one number of them in an accepted program (`proofs/lemmas/live_entries/Existing.antt`): where walks lead,
// which edges there are and what is live can be decided, since a function has finitely many branches (`proofs/lemmas/live_entries/Reaching.antt`,
// `proofs/lemmas/live_entries/Deciding.antt`).

mod laws;

pub use laws::live_entries_are_one;
