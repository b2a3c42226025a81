// Laws of paths, and of the order in which entries are taken. Each function does nothing, and its contract is the law.

ghost use Rattle.trace_paths.specs.Fits.{count_of};
ghost use Rattle.trace_paths.specs.Laws.{PathsAreShort};
ghost use Rattle.trace_paths.specs.Order.{OrderLaws};

/// The path of an entry lays at most 256 items, and takes at most as many choices as the entry has.
pub fn paths_are_short()
    ensures { PathsAreShort }
{}

/// The entries of a profile are taken by falling count, equal counts in the profile's order. So entries whose counts are all
/// equal are taken in the profile's order.
pub fn entries_are_taken_by_count()
    ensures { OrderLaws count_of }
{}
