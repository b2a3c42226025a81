// Laws alone: stretches of words on the machine.
//
// What a stretch of words does is told from any running machine at its first word: after so many steps the machine is at
// another word, with registers and memory that are written down. `specs/stretches/` says what such a stretch is; `proofs/` has one
// lemma for each kind of word, which leads a stretch one word further, and which the crates above cite. Each function
// here states some of it as a law, and does nothing when it is called.

ghost use Rattle.rv64_words_laws.specs.stretches.Laws.{ComputingWordsRun, StackLoadsRun, StackStoresRun, GuardJumpsRun};

/// Words that compute alone (`LUI`, and operations on registers and immediates) run one after the other, and change
/// registers as their operations say.
pub fn computing_words_run()
    ensures { ComputingWordsRun }
{}

/// A load from an address of the stack, and a store to one.
pub fn stack_words_run()
    ensures loads { StackLoadsRun }
    ensures stores { StackStoresRun }
{}

/// A jump whose word is a guard's is counted as an arrival there.
pub fn guard_jumps_run()
    ensures { GuardJumpsRun }
{}
