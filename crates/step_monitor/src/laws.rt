// The laws of a monitor's stops, marks and values. The functions state them, and do nothing when they are called.

ghost use Rattle.step_monitor.specs.Laws.{FailsPassNone, MarksChoose, MarksStand, NoneTraps, PassesLeaveNone, SpendsPassNone, StopsAreLeast, StopsShowEntries, StopsShowValues, StopsStandLater, ValuesAreThePoints};

/// Over an image and points that show a program, a call stops where the program is at the first chosen item ahead, and the monitor
/// then stands there.
pub fn stops_are_least()
    ensures least { StopsAreLeast }
    ensures later { StopsStandLater }
{}

/// Over such an image, a call that stops at no point has passed no chosen item: where it executed all of its words, or a print failed,
/// what is ahead comes after its words; where the machine has ended, nothing is ahead, and it never traps.
pub fn runs_pass_none()
    ensures spent { SpendsPassNone }
    ensures ended { PassesLeaveNone }
    ensures traps { NoneTraps }
    ensures failed { FailsPassNone }
{}

/// Marks choose items, and leave the monitor where it stands.
pub fn marks_choose()
    ensures choose { MarksChoose }
    ensures stand { MarksStand }
{}

/// Where a monitor has stopped at a point, it answers for a variable what the point shows of it: over an image and points that show a
/// program, the variable's value in the program's state there.
pub fn stops_show_values()
    ensures point { ValuesAreThePoints }
    ensures program { StopsShowValues }
{}

/// Over an image and points that show a program, after a call that stops at a point the entries are the point's, and each has the value
/// of its variable in the program's state there.
pub fn stops_show_entries()
    ensures { StopsShowEntries }
{}
