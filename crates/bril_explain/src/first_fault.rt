// The first fault of a program, told to people.

ghost use Rattle.std.specs.Prelude.{◌≡◌, [], IfErr, IfOk, MatchOption};
ghost use Rattle.bril_commands.specs.Source.{WithImports, IsProgramOf};
ghost use Rattle.bril_explain.specs.Explained.{Explains, IsExplained, IsFaultOf, Refuses, Tells};
ghost use Rattle.bril_explain.specs.Held.{HoldTarget};
ghost use Rattle.bril_explain.specs.Kept.{AreOf, bytes_at};
ghost use Rattle.bril_explain.specs.Target.{fault_path, target_of};
ghost use Rattle.bril_tree.specs.declared.program.Prog.{Prog};

use crate::explanation::Explanation;
use crate::files::read_files;
use crate::help::help;
use crate::kept::{KeptFile, KeptFiles};
use crate::locate::locate;
use crate::message::message;
use crate::problem::problem;
use bril_checker::Checked;
use bril_commands::program::accepted_program;
use bril_commands::source::linked_tree;
use bril_outside::files::Files;
use bril_outside::sink::Sink;
use bril_report::{ErrorOutput, Status, say, status_number};
use bril_tree::bytes::Bytes;
use bril_tree::sequence::Seq;
use std::alloc::{AllocError, Global};

/// Reads, links and checks the program whose first file is at the path `root`, as the command `check` does, and tells its first fault on
/// the error output by one put: the file, the line and the column, what is wrong, the line with a caret below its first token, and what
/// would mend it. The answer is the exit status, which is that of `check`. For an accepted program it is 0, and nothing is put. Where
/// memory is wanting it is 71, and the line of this status is put.
///
/// A fault of an item points to the first token of the item, one of a function to its name, one of a text to the byte that it names, and
/// one of an import to the first token of the file that is the name, as `@name`. In a file in JSON the path of the keys stands in place of
/// the line and the column; a fault of an import, of no function, or of a file that can't be read points to the file alone. Each file is read
/// once, and what is shown of it is what was read.
pub fn explain<F: Files, E: Sink>(
    alloc: Global,
    root: &str,
    files: &mut F,
    err: &mut ErrorOutput<'_, E>,
) -> u8
    ensures holds { (F.seen files.new).holds ≡ (F.seen files.old).holds }
    ensures explained { IsExplained E.seen result (F.seen files.old) (F.seen files.new) root.now err.old err.new }
{
    match explanation(alloc, root, files) {
        Ok(None) => 0,
        Ok(Some(found)) => {
            err.put(found.message.as_slice());
            status_number(&found.status)
        }
        Err(AllocError) => {
            let status = Status::OutOfMemory;
            say(err, &status);
            status_number(&status)
        }
    }
}

// The first fault with the message on it, or none where the program is accepted.
fn explanation<F: Files>(
    alloc: Global,
    root: &str,
    files: &mut F,
) -> Result<Option<Explanation>, AllocError>
    ensures holds { (F.seen files.new).holds ≡ (F.seen files.old).holds }
    ensures ok { IfOk result (λ found. MatchOption found ((p : Prog) × IsProgramOf WithImports (F.seen files.old).holds root.now p) (Explains (F.seen files.old) (F.seen files.new) root.now)) }
{
    let mut kept = Seq::new(alloc);
    match kept_program(alloc, root, files, &mut kept) {
        Ok(_) => Ok(None),
        Err(Status::OutOfMemory) => Err(AllocError),
        Err(status) => {
            let message = message_on(alloc, root, &status, kept.as_slice())?;
            Ok(Some(Explanation { status, message }))
        }
    }
}

// The accepted program whose first file is at the path, by its files, each of which is read once and kept.
fn kept_program<F: Files>(
    alloc: Global,
    root: &str,
    files: &mut F,
    kept: &mut Seq<KeptFile>,
) -> Result<Checked, Status>
    requires { kept.old ≡ [] }
    ensures holds { (F.seen files.new).holds ≡ (F.seen files.old).holds }
    ensures are { AreOf (F.seen files.old).holds (bytes_at kept.new) }
    ensures ok { IfOk result (λ checked. IsProgramOf WithImports (F.seen files.old).holds root.now checked.prog) }
    ensures err { IfErr result (λ status. Refuses status (F.seen files.old) (F.seen files.new) root.now) }
    ensures fault { IfErr result (λ status. IsFaultOf status (bytes_at kept.new) root.now) }
    ensures target { IfErr result (λ status. HoldTarget kept.new root.now (fault_path root.now status) (target_of status)) }
{
    read_files(alloc, root, files, kept)?;
    let mut again = KeptFiles {
        list: kept.as_slice(),
    };
    let checked = accepted(alloc, root, &mut again)?;
    Ok(checked)
}

// The accepted program whose first file is at the path.
pub fn accepted<F: Files>(alloc: Global, root: &str, files: &mut F) -> Result<Checked, Status>
    ensures holds { (F.seen files.new).holds ≡ (F.seen files.old).holds }
    ensures ok { IfOk result (λ checked. IsProgramOf WithImports (F.seen files.old).holds root.now checked.prog) }
    ensures err { IfErr result (λ status. Refuses status (F.seen files.old) (F.seen files.new) root.now) }
{
    let tree = linked_tree(alloc, root, files)?;
    let checked = accepted_program(alloc, &tree)?;
    Ok(checked)
}

// The message on the fault of a status, by the files as they were read.
fn message_on(
    alloc: Global,
    root: &str,
    status: &Status,
    kept: &[KeptFile],
) -> Result<Bytes, AllocError>
    requires { HoldTarget kept.now root.now (fault_path root.now status.now) (target_of status.now) }
    ensures { IfOk result (Tells (bytes_at kept.now) root.now status.now) }
{
    let located = locate(alloc, root, status, kept)?;
    let problem = problem(alloc, status)?;
    let message = message(alloc, &located, problem.as_slice(), help(status))?;
    Ok(message)
}
