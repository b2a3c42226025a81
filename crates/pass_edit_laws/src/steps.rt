// Laws alone: runs of a program and of what a pass made of it, by the pass's plan.
//
// At a regular pair of points matched states make steps to matched states, for each operation, calls, returns, saves
// and aborts among them. Elsewhere one side goes on alone, or both make some steps. Where matched states always go on
// in one of these branches, the result refines the program. What a pass proves for this is `Advances`, in `specs/steps/`; the
// lemmas that it takes for its special points are in `proofs/lemmas/steps/Moves.antt`, where one side goes on alone or both follow a
// branch by items that differ, and `proofs/lemmas/steps/Attempts.antt` for items between
// a `speculate` and a `commit` that the program doesn't have.

ghost use Rattle.pass_edit_laws.specs.steps.Refinement.{PlanRefines};

use crate::plan::Planned;

/// Where a plan is preserved, and matched states that run go on so that the result makes at most a number of steps for
/// each step of the program, the result refines the program with that number as its factor. Going on means one of three:
/// the result catches up with the program at a regular pair of points; the program makes a step alone while a distance
/// falls; or some steps of both lead to matched states or to the same end.
pub fn plan_refines<M: Planned>()
    ensures { PlanRefines M.plan }
{}
