// Laws alone: short sequences of words, and what they do.
//
// `specs/sequences/Sequences.antt` has the sequences from which code is laid out: constants, loads and stores of a frame's words,
// faults and jumps. Each is short where the number or the word's place allows it, and its size depends on these alone.
// `specs/sequences/Moves.antt` has the words between homes of values, registers and words of the frame, `specs/sequences/Operations.antt` the
// words of the operations. `proofs/` shows what the sequences do, by one lemma for each, which the crates above cite. Each
// function here states some of it as a law, and does nothing when it is called.

ghost use Rattle.rv64_words_laws.specs.sequences.Laws.{ConstantsRun, FrameLoadsRun, FrameStoresRun, OperandsRun, ResultsRun, FillsRun, CopiesRun, SavesRun, RestoresRun};

/// The words of a constant set one register to it, in one, two or eight words.
pub fn constants_run()
    ensures { ConstantsRun }
{}

/// A word of a frame is loaded or stored, near its base or far from it. Register 6 may change besides.
pub fn frame_words_run()
    ensures loads { FrameLoadsRun }
    ensures stores { FrameStoresRun }
{}

/// A register of an operation gets what a home has, and a home gets its result, what a register has, or what another home has:
/// no word where it is there already. Of what other code relies on nothing else changes.
pub fn homes_run()
    ensures operands { OperandsRun }
    ensures results { ResultsRun }
    ensures fills { FillsRun }
    ensures copies { CopiesRun }
{}

/// What homes have comes into words of the frame, and back. Registers 5 and 6 may change besides.
pub fn moves_run()
    ensures saves { SavesRun }
    ensures restores { RestoresRun }
{}
