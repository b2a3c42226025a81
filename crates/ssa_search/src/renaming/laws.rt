// How the array of a sweep follows the tables of a function.

ghost use Rattle.ssa_search.specs.renaming.Swept.{SweepTellsTables};

/// Where a function begins the array tells what its tables tell just before the first item, and behind an item and its `get`s
/// what they tell just before the next one. A call does nothing.
pub fn sweep_tells_tables()
    ensures { SweepTellsTables }
{}
