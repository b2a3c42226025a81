// Laws of the numbers of a program.

ghost use Rattle.program_numbers.specs.Laws.{EntryCountsAreOne, EntryWidthsAreOne, EntriesAreOne, CostsAreOne};

/// A function has one number of entries and one width of them, and a program one number of entries and one cost.
pub fn numbers_are_one()
    ensures entries { EntryCountsAreOne }
    ensures width { EntryWidthsAreOne }
    ensures sum { EntriesAreOne }
    ensures cost { CostsAreOne }
{}
