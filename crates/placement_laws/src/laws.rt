// Laws of homes, and of what speculations save. Each function states some, and does nothing when it is called.

ghost use Rattle.placement_laws.specs.Laws.{DifferentHomesArePlaced, ReachedLeadOut, SavedAreAssignedInside, SeparateHomesAreApart, SeparateHomesArePlaced};

/// Homes don't clash where only locations share them whose spans don't meet, or where no two locations have one home; and no two
/// locations that are live at one point share one whose spans don't meet.
pub fn homes_are_placed()
    ensures separate { SeparateHomesArePlaced }
    ensures different { DifferentHomesArePlaced }
    ensures live { SeparateHomesAreApart }
{}

/// A speculation saves a location exactly where some item assigns it from which a walk, on which that speculation stays
/// open, leads to a guard of it at whose label it is live; and a search back from the guards of a label finds exactly the points
/// from which such walks lead to them.
pub fn saved_are_found()
    ensures saved { SavedAreAssignedInside }
    ensures found { ReachedLeadOut }
{}
