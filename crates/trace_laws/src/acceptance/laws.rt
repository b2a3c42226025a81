// That a program with traces is accepted.

ghost use Rattle.trace_laws.specs.acceptance.Laws.{TracesAreAccepted};

/// An accepted program with the traces of a profile's entries is accepted. A call does nothing.
pub fn traces_are_accepted()
    ensures { TracesAreAccepted }
{}
