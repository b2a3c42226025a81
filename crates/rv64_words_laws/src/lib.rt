//! Laws alone: what words do on the machine, from single words to the sequences that code is laid out from.
//!
//! 1. Stretches of words: what they lead to from any running machine at their first word, by each kind of word, jump and
//!    environment call, and which words the machine comes to in between (`stretches`).
//! 2. The short sequences of words that items are made of (`sequences`): constants, words of the frame, faults, operations,
//!    and moves between homes of values, registers and words of the frame (`specs/sequences/Moves.antt`).
//! 3. The words of an operation compute the word of its value, or end with its fault; those of a load and of a store find the
//!    cell of a pointer (`values`).
//! 4. The blocks of a program in the machine's memory (`blocks`): when the block table and the cells hold them
//!    (`specs/blocks/Memory.antt`), and that allocations, where need be after sliding, frees, loads and stores keep that,
//!    with the same faults.
#![tactic(auto)]

pub mod blocks;
pub mod sequences;
pub mod stretches;
pub mod values;
