// What follows of the lines of traces alone.

ghost use Rattle.trace_laws.specs.lines.Laws.{TracesAreWellLaid};

/// A tree with traces can be numbered: its labels differ, and each function and label that an item names is there. Each trace brings
/// at most twice the items that its path lays, and five. A call does nothing.
pub fn traces_are_well_laid()
    ensures { TracesAreWellLaid }
{}
