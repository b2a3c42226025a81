// What follows of code that is laid out by tables.

ghost use Rattle.ssa_laws.specs.layout.Accepted.{LaidAccepted};
ghost use Rattle.ssa_laws.specs.layout.Form.{DefinedOnce, GetsFollowLabels};
ghost use Rattle.ssa_laws.specs.layout.Laid.{LaidRefine};

/// Code that is laid out by tables that agree does what its program did. Where at most `c` `get`s and `set`s stand before an
/// item, one step of the program is `c + 1` of the result at most. A call does nothing.
pub fn laid_code_refines()
    ensures { LaidRefine }
{}

/// Laid code is accepted, where each of its points is a renamed item, a `get`, a `set`, a `nop` or a label, each definition has
/// its type, and before an item each `get` is set from one definition. A call does nothing.
pub fn laid_code_is_accepted()
    ensures { LaidAccepted }
{}

/// In laid code each definition is assigned at one point, or is an argument and assigned at none. A call does nothing.
pub fn definitions_stand_once()
    ensures { DefinedOnce }
{}

/// In laid code each `get` stands behind a label, with only `get`s between. A call does nothing.
pub fn gets_follow_labels()
    ensures { GetsFollowLabels }
{}
