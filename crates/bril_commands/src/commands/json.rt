// `json`: the file in canonical JSON, and LF.

ghost use Rattle.std.specs.Prelude.{[]};
ghost use Rattle.bril_commands.specs.Outcome.{Works};
ghost use Rattle.bril_commands.specs.commands.Json.{writes_as_json};
ghost use Rattle.bril_report.specs.StageFaults.{status_of};

use crate::output::put_alone;
use bril_json::write_json;
use bril_outside::sink::Sink;
use bril_report::Status;
use bril_tree::bytes::Bytes;
use bril_tree::tree::Tree;
use std::alloc::Global;

/// Puts the canonical JSON of a tree, and LF, on the output, by one put.
pub fn put_json<O: Sink>(alloc: Global, tree: &Tree, out: &mut O) -> Result<(), Status>
    ensures { Works (writes_as_json tree.now) (status_of result) [] (O.seen out.old) (O.seen out.new) }
{
    let mut text = Bytes::new(alloc);
    write_json(alloc, tree, &mut text)?;
    text.add(b"\n")?;
    put_alone(text.as_slice(), out)
}
