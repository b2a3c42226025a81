// Laws of the number of live entries.

ghost use Rattle.ssa_laws.specs.live_entries.Laws.{LiveEntriesAreOne, LiveEntriesAreThere, LiveEntryCountsAreOne, LiveEntryCountsAreThere, WidthsAreThere};

/// A program has one number of live entries at most, and an accepted program has one, as it has a greatest width of entries. So has
/// a function whose open sites are sound. A call does nothing.
pub fn live_entries_are_one()
    ensures one { LiveEntriesAreOne }
    ensures there { LiveEntriesAreThere }
    ensures count_one { LiveEntryCountsAreOne }
    ensures count_there { LiveEntryCountsAreThere }
    ensures width { WidthsAreThere }
{}
