// What follows of a tree in SSA form.

ghost use Rattle.ssa_form_laws.specs.laid.Laws.{LaidTreesAreAccepted, LaidTreesAreLaid, LaidTreesRefine};

/// The tables of a tree in SSA form are those by which its code is laid out. A call does nothing.
pub fn laid_trees_are_laid()
    ensures { LaidTreesAreLaid }
{}

/// The program of a tree in SSA form does what its program did, in 1 + 2·X·(D + 1) steps for one at most, where X is the greatest number
/// of locations and D that of labels to which edges go from one leave point. A call does nothing.
pub fn laid_trees_refine()
    ensures { LaidTreesRefine }
{}

/// The program of a tree of an accepted program in SSA form is accepted. A call does nothing.
pub fn laid_trees_are_accepted()
    ensures { LaidTreesAreAccepted }
{}
