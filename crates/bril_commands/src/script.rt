// The script that a command carries out.

ghost use Rattle.std.specs.Prelude.{◌≡◌, ◌≤◌, IfOk, IfErr};
ghost use Rattle.bril_commands.specs.Scripts.{HoldsScript, IsScriptAt, RefusesScript, RefusesScriptFile};
ghost use Rattle.bril_words.specs.Seen.{text_seen};

use bril_outside::files::{FileFault, Files};
use bril_report::Status;
use bril_tree::bytes::Bytes;
use bril_tree::sequence::Seq;
use bril_tree::text::Text;
use monitor_script::{Order, read_script};
use std::alloc::Global;

// The most bytes that the file of a script may have.
const MOST_SCRIPT_BYTES: u64 = 1048576;

/// The orders of the script in the file at the path, of at most 1,048,576 bytes; none where there is no path.
///
/// The first of `CannotRead`: the file is not there, or reading it failed; `ScriptTooLarge`: it has more bytes; `MisreadScript`: this
/// is its first line that breaks the form of a script.
pub fn script_at<F: Files>(
    alloc: Global,
    path: Option<&str>,
    files: &mut F,
) -> Result<Seq<Order>, Status>
    ensures holds { (F.seen files.new).holds ≡ (F.seen files.old).holds }
    ensures faults { (F.seen files.old).faults ≤ (F.seen files.new).faults }
    ensures ok { IfOk result (λ orders. IsScriptAt (text_seen path.entry) (F.seen files.old).holds orders) }
    ensures err { IfErr result (λ status. RefusesScript (text_seen path.entry) status (F.seen files.old) (F.seen files.new)) }
{
    match path {
        None => Ok(Seq::new(alloc)),
        Some(path) => script_of(alloc, path, files),
    }
}

// The orders of the script in the file at the path.
fn script_of<F: Files>(alloc: Global, path: &str, files: &mut F) -> Result<Seq<Order>, Status>
    ensures holds { (F.seen files.new).holds ≡ (F.seen files.old).holds }
    ensures faults { (F.seen files.old).faults ≤ (F.seen files.new).faults }
    ensures ok { IfOk result (λ orders. HoldsScript (F.seen files.old).holds path.now orders) }
    ensures err { IfErr result (λ status. RefusesScriptFile status (F.seen files.old) (F.seen files.new) path.now) }
{
    let path = Text::of(alloc, path)?;
    let mut bytes = Bytes::new(alloc);
    match files.read(alloc, &path, MOST_SCRIPT_BYTES, &mut bytes) {
        Ok(true) => Ok(read_script(alloc, bytes.as_slice())?),
        Ok(false) => Err(Status::ScriptTooLarge),
        Err(FileFault::Failed) => Err(Status::CannotRead { path }),
        Err(FileFault::Memory) => Err(Status::OutOfMemory),
    }
}
