// What is always enough for a list of passes.

ghost use Rattle.pass_budget_laws.specs.Laws.{ChainsAreWithinBudget, OwnNumbersAreWithin};

use pass_law::Pass;

/// The cost of a step of the program at the end of a chain, times the product of the factors, times n + 1, is at most the budget of the
/// names for n steps, from the numbers of the program at its beginning, where each pass is within the rows of its names. A call does
/// nothing.
pub fn chains_are_within_budget<P: Pass>()
    ensures { ChainsAreWithinBudget P.meaning }
{}

/// An accepted program's numbers are at most its own. A call does nothing.
pub fn own_numbers_are_within()
    ensures { OwnNumbersAreWithin }
{}
