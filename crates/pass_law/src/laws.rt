// What follows from the links of a chain.

ghost use Rattle.pass_law.specs.Chains.{ChainsRefine};

use crate::pass::Pass;

/// The program at the end of a chain is accepted, and refines the one at its beginning with the product of the factors
/// of its links. A call does nothing.
pub fn chains_refine<P: Pass>()
    ensures { ChainsRefine P.meaning }
{}
