// Laws alone: the result of a pass is accepted, by the pass's plan and the edit that it made of each function.
//
// An item of the result is one of the program, by its tree, or one that the pass made or rewrote. A variable has the type
// of its first destination, and a pass that drops items may take that one away; but one that is an argument or still a
// destination keeps its type, and so each item that stays is typed as it was. The walks of the result are matched by
// walks of the program, so its sites are sound and each location that is read is assigned; a pass whose result opens
// sites of its own shows that its walks are accepted by `walks`. What a pass proves for this is `Edits`, in `specs/acceptance/`.
//
// A pass that gives variables other names, or types of its own, shows item by item that each fits (`Stays`, in `specs/acceptance/`).

ghost use Rattle.pass_edit_laws.specs.acceptance.Edited.{EditAccepted};
ghost use Rattle.pass_edit_laws.specs.acceptance.Stays.{ResultAccepted};

use crate::plan::Planned;

/// Where a plan is preserved, functions keep their names, arguments and results, and each function is edited as `Edits`
/// says, the result of an accepted program is accepted.
pub fn edit_accepted<M: Planned>()
    ensures { EditAccepted M.plan }
{}

/// A program whose functions keep their names, arguments and results is accepted where another one is, each item meets
/// its row of the table of operations by itself or is one of the other program whose variables keep their types, and
/// the walks are accepted.
pub fn result_is_accepted()
    ensures { ResultAccepted }
{}
