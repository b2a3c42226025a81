// What follows of what the pass means.

ghost use Rattle.pass_law.specs.Meaning.{HasNumbers};
ghost use Rattle.trace_laws.specs.Laws.{FitsAreOneList, TracesLink};
ghost use Rattle.trace_laws.specs.Trace.{trace_meaning};

/// An accepted program and a profile have one list of entries that fit. A call does nothing.
pub fn fitting_entries_are_one_list()
    ensures { FitsAreOneList }
{}

/// A program and a profile have one factor and one bound at most, and an accepted program has both. A call does nothing.
pub fn trace_has_numbers()
    ensures { HasNumbers trace_meaning }
{}

/// A tree with traces can be numbered where the bound has room, and the program is accepted, refines the given one with the pass's
/// factor, and is within its bound. A call does nothing.
pub fn traces_link()
    ensures { TracesLink }
{}
