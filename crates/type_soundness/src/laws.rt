// Laws of the runs of accepted programs. Each function states one, and does nothing when it is called.

ghost use Rattle.type_soundness.specs.WellTyped.{RunsAreWellTyped, LoadsAreWellTyped};

/// A run of an accepted program, with arguments that fit, has a newest frame after every number of steps, and its
/// frames are well typed. Each location that a frame's item reads, and each typed one that is live there, holds a value
/// of the location's type, in its range. A frame stands at the end of a walk and has as many saves as sites are open
/// there: a `commit` or a `guard` has one, there are never more than eight, and none is left where a frame begins or
/// ends. A function that returns a value doesn't run off its end, and each older frame stands at a call of the function
/// of the frame above it.
pub fn accepted_runs_are_well_typed()
    ensures { RunsAreWellTyped }
{}

/// In such a run, what a `load` finds in memory is of the type that it gives, and in its range.
pub fn accepted_loads_are_well_typed()
    ensures { LoadsAreWellTyped }
{}
