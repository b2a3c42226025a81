// What follows of names that are made so.

ghost use Rattle.ssa_build.specs.fresh_names.Laws.{NamesDiffer, NamesStayShort};

/// No two definitions have one name. A call does nothing.
pub fn names_differ()
    ensures { NamesDiffer }
{}

/// A name that is made of a made name has only another number. A call does nothing.
pub fn names_stay_short()
    ensures { NamesStayShort }
{}
