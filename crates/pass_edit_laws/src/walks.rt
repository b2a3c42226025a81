// Laws alone: walks of what a pass made, and walks of its program that match them.
//
// A program is accepted by the walks of its functions: by the sites that are open on them and by the locations that they
// assign. A pass shows that each walk of its result is matched by one of the program, by its plan. Where items of the
// result open sites of their own, `proofs/lemmas/walks/Based.antt` has the same for walks that stand over one of the program, and
// `proofs/lemmas/walks/Blocks.antt` has which points of the result stand by which item of the program.

ghost use Rattle.pass_edit_laws.specs.walks.Matched.{WalksAccepted};

use crate::plan::Planned;

/// Where a plan is preserved and each walk of a function of the result is matched by a walk of the program's function,
/// the walks of the result are accepted as the program's are: the sites are sound, no call, return or end stands inside
/// an open site, no walk runs off the end of a function that returns a value, and each location that is read is assigned.
pub fn walks_are_accepted<M: Planned>()
    ensures { WalksAccepted M.plan }
{}
