// Laws of the demo program. A call does nothing.

ghost use Rattle.bril_demo.specs.Laws.{DemosAreAccepted, DemosHaveNoFault, DemosTakeNothing};

/// The tree of the demo of any number of functions has no fault of a name, and its program is accepted; its `main` takes no
/// arguments. A call does nothing.
pub fn demos_are_accepted()
    ensures faultless { DemosHaveNoFault }
    ensures accepted { DemosAreAccepted }
    ensures alone { DemosTakeNothing }
{}
