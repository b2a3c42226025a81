// Laws alone: the blocks of a program in the machine's memory.
//
// `specs/blocks/Memory.antt` says when the machine's block table and cells hold the blocks of a program: by the addresses in the
// table, live blocks apart from one another. Here the operations of memory are shown to keep that, and to find in it what
// the program finds. Each function states a law, and does nothing when it is called.

ghost use Rattle.rv64_words_laws.specs.blocks.Laws.{AllocationsAreAlike, FreesAreAlike, AccessesAreAlike, LoadsAreAlike, StoresAreAlike};

/// The machine gives a block exactly where the program gets one, with the same fault else, and then holds it too.
pub fn allocations_are_alike()
    ensures { AllocationsAreAlike }
{}

/// The machine frees a block exactly where the program does, and then holds the blocks that are left.
pub fn frees_are_alike()
    ensures { FreesAreAlike }
{}

/// A pointer that has no cell has an offset that isn't inside the size in the machine's block table. A load finds the word of
/// what the program's cell holds, or that it was never stored, and a store leaves the cell so.
pub fn cells_are_alike()
    ensures access { AccessesAreAlike }
    ensures load { LoadsAreAlike }
    ensures store { StoresAreAlike }
{}
