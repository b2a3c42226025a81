// Laws alone: how the numbers of a program grow by traces (`specs/growth/Numbers.antt`).
//
// 1. Each entry of a label is one of the program, or one of three that a trace brings; and no more labels are entered from one leave
//    point, but where there were none one (`proofs/lemmas/growth/Entering.antt`).
// 2. A walk has at most one open site more, and at most 8 (`proofs/lemmas/growth/Deepening.antt`).
// 3. Each item is one of the program or plain, with at most one new variable for each laid item (`proofs/lemmas/growth/NewItems.antt`).

mod laws;

pub use laws::trace_keeps_numbers;
