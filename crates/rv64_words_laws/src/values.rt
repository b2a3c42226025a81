// Laws alone: the words of the operations compute what the operations of Bril do.
//
// `sequences` has the words of each operation of code over slots: most go from any registers to any register in which a
// location may be, some from registers 5 and 7 to register 5. Here they are shown right, for operands of the types that the
// operation takes: the result's word stands in its register after at most as many steps as there are words, all else that
// other code relies on is kept, and where the operation faults the run ends with that fault and no other. Each function states
// a law, and does nothing when it is called.

ghost use Rattle.rv64_words_laws.specs.values.Cells.{CellWordsFind, CellWordsFault, LoadWordsGive, LoadWordsFault, MarkWordsRun, StoreWordsRun};
ghost use Rattle.rv64_words_laws.specs.values.Laws.{UnaryWordsGive, UnaryWordsFault, BinaryWordsGive, BinaryWordsFault};

/// `not` and the casts between ints and chars.
pub fn unary_words_compute()
    ensures gives { UnaryWordsGive }
    ensures faults { UnaryWordsFault }
{}

/// Arithmetic, comparisons, logic and the arithmetic of pointers.
pub fn binary_words_compute()
    ensures gives { BinaryWordsGive }
    ensures faults { BinaryWordsFault }
{}

/// The words that find a pointer's cell by the block table, or end with the fault Access, those that load a cell, or end with
/// the fault Uninit, and those that store one.
pub fn cell_words_compute()
    ensures finds { CellWordsFind }
    ensures access { CellWordsFault }
    ensures loads { LoadWordsGive }
    ensures uninit { LoadWordsFault }
    ensures marks { MarkWordsRun }
    ensures stores { StoreWordsRun }
{}
