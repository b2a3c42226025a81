// Laws of the names of operations, of the semantics, of the trees of programs, of live locations and of frames. Each
// function states some, and does nothing when it is called.

ghost use Rattle.bril_tree.specs.Laws.{OperationsAreNamed, RunsAreSystems, RefinesItself, RefinesOn, ProgramsHaveTrees, TreesAreOne, NumberingKeepsCounts, NumberingKeepsBounds, CountedHaveSize, LiveAreAssigned, FrameWordsAreOne};

/// Each operation is found by its own name, and by no other.
pub fn operations_are_named()
    ensures { OperationsAreNamed }
{}

/// A run that ended stays as it is, and what a run has printed only grows.
pub fn runs_are_systems()
    ensures { RunsAreSystems }
{}

/// Each program refines itself, step by step.
pub fn refines_itself()
    ensures { RefinesItself }
{}

/// Where a second program refines a first one and a third the second, the third refines the first, and the
/// factors on the numbers of steps multiply.
pub fn refines_on()
    ensures { RefinesOn }
{}

/// A program is the numbering of its tree and of no other. Numbering keeps how many functions and items there are, and
/// each bound on the items of a function.
pub fn programs_have_one_tree()
    ensures tree { ProgramsHaveTrees }
    ensures one { TreesAreOne }
    ensures counts { NumberingKeepsCounts }
    ensures bounds { NumberingKeepsBounds }
{}

/// A program whose functions and points have numbers of 32 bits has fewer than 2^64 items.
pub fn counted_programs_have_a_size()
    ensures { CountedHaveSize }
{}

/// Each walk to a point of an accepted function has assigned what is live there, an argument at the start.
pub fn live_locations_are_assigned()
    ensures { LiveAreAssigned }
{}

/// A function has one number of frame words.
pub fn frame_words_are_one()
    ensures { FrameWordsAreOne }
{}
