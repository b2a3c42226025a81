// Laws of faults.

ghost use Rattle.bril_checker.specs.Laws.{AcceptedHaveNoFault, FaultlessAreAccepted, FaultsAreOne};

/// A program is accepted exactly where it has no fault, and it has at most one. It does nothing when it is called.
pub fn accepted_or_fault()
    ensures accepted { AcceptedHaveNoFault }
    ensures faultless { FaultlessAreAccepted }
    ensures one { FaultsAreOne }
{}
