// What follows of what the pass means.

ghost use Rattle.pass_law.specs.Meaning.{HasNumbers};
ghost use Rattle.side_laws.specs.Laws.{
  PairsAreOneList,
  SideBoundsAreShort,
  SideExitsAreAccepted,
  SideExitsKeepNumbers,
  SideExitsLink,
  SideExitsRefine,
};
ghost use Rattle.side_laws.specs.Side.{side_meaning};

/// A function of an accepted program has one list of paired guards. A call does nothing.
pub fn pairs_are_one_list()
    ensures { PairsAreOneList }
{}

/// A program with side exits does what the program does, with the factor 1. A call does nothing.
pub fn side_exits_refine()
    ensures { SideExitsRefine }
{}

/// A program with the side exits of an accepted one is accepted. A call does nothing.
pub fn side_exits_are_accepted()
    ensures { SideExitsAreAccepted }
{}

/// How the numbers of a program grow by side exits. A call does nothing.
pub fn side_exits_keep_numbers()
    ensures { SideExitsKeepNumbers }
{}

/// The bound on the items is at most 515 for each item. A call does nothing.
pub fn side_bounds_are_short()
    ensures { SideBoundsAreShort }
{}

/// A program has one factor and one bound at most, and an accepted program has both. A call does nothing.
pub fn side_has_numbers()
    ensures { HasNumbers side_meaning }
{}

/// A tree with side exits can be numbered where the bound has room, and the program is accepted, refines the given one with the
/// pass's factor, is within its bound, and each of its side exits is straight. A call does nothing.
pub fn side_exits_link()
    ensures { SideExitsLink }
{}
