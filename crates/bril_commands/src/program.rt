// The accepted program of a tree: the stages between the tree of a command's files and what it does with their program.

ghost use Rattle.std.specs.Prelude.{◌≡◌, [], IfOk, IfErr};
ghost use Rattle.bril_commands.specs.Stages.{IsAcceptedProgram, RefusesProgram};

use bril_checker::{Checked, check};
use bril_names::number;
use bril_report::Status;
use bril_tree::tree::Tree;
use std::alloc::Global;

/// The program of a tree without imports, which is accepted.
///
/// `Misnamed`: a name has this fault. `Unaccepted`: the program has this fault.
pub fn accepted_program(alloc: Global, tree: &Tree) -> Result<Checked, Status>
    requires { tree.now.imports ≡ [] }
    ensures ok { IfOk result (λ checked. IsAcceptedProgram tree.now checked.prog) }
    ensures err { IfErr result (λ status. RefusesProgram status tree.now) }
{
    let program = number(alloc, tree)?;
    // No file of the allowed size has as many functions or items.
    if !program.is_counted() {
        return Err(Status::OutOfMemory);
    }
    Ok(check(alloc, program)?)
}
