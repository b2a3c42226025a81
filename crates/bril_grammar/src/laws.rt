// Laws of terminals and of the grammar. Each function states some, and does nothing when it is called.

ghost use Rattle.bril_grammar.specs.Laws.{TerminalsAreSpelled, ProgramsAreRead, ReadingsAreSpellings, SpellOneTree, ReadFaultIsFirst, FirstFaultIsRead, ProgramsHaveNoFault, OthersHaveOneFault};

/// The terminal of a token is what the token spells: the name of an identifier, a function or a label, the value of a
/// number that is an int of 64 bits, the scalar value of a char, the path, or the mark.
pub fn terminals_are_spelled()
    ensures { TerminalsAreSpelled }
{}

/// The machine that reads tokens one by one gives exactly the trees of the grammar.
pub fn grammar_is_read()
    ensures programs { ProgramsAreRead }
    ensures readings { ReadingsAreSpellings }
{}

/// Tokens spell at most one tree.
pub fn one_tree()
    ensures { SpellOneTree }
{}

/// Where the machine gives a fault, it is the first fault over all readings, and every first fault is the machine's.
pub fn first_fault_is_read()
    ensures first { ReadFaultIsFirst }
    ensures only { FirstFaultIsRead }
{}

/// Tokens either spell a tree and have no fault, or spell none and have exactly one first fault.
pub fn tree_or_fault()
    ensures programs { ProgramsHaveNoFault }
    ensures others { OthersHaveOneFault }
{}
