// What follows of operands without trivial `get`s.

ghost use Rattle.ssa_build.specs.operands.Accepted.{AcceptedAreTabled};
ghost use Rattle.ssa_build.specs.operands.Operands.{LeftAreNeeded, ResolvedAreSolved};

/// Where no trivial `get` is left among the operands of a function, all that a `get` that was left out is set from stands for
/// what stands for it. A call does nothing.
pub fn resolved_tables_are_solved()
    ensures { ResolvedAreSolved }
{}

/// Where no trivial `get` is left, each `get` that stays is set from two definitions that differ, and neither is the `get`
/// itself. A call does nothing.
pub fn left_gets_are_needed()
    ensures { LeftAreNeeded }
{}

/// Where each function of an accepted program has a `get` for exactly what is live behind its reached labels, all that is asked
/// of its tables holds. A call does nothing.
pub fn accepted_code_is_tabled()
    ensures { AcceptedAreTabled }
{}
