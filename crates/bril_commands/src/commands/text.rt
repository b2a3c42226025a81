// `text`: the file in canonical text.

ghost use Rattle.std.specs.Prelude.{[]};
ghost use Rattle.bril_commands.specs.Outcome.{Works};
ghost use Rattle.bril_commands.specs.commands.Text.{writes_as_text};
ghost use Rattle.bril_report.specs.StageFaults.{status_of};

use crate::output::put_alone;
use bril_outside::sink::Sink;
use bril_report::Status;
use bril_text::write_text;
use bril_tree::bytes::Bytes;
use bril_tree::tree::Tree;
use std::alloc::Global;

/// Puts the canonical text of a tree on the output, by one put.
pub fn put_text<O: Sink>(alloc: Global, tree: &Tree, out: &mut O) -> Result<(), Status>
    ensures { Works (writes_as_text tree.now) (status_of result) [] (O.seen out.old) (O.seen out.new) }
{
    let mut text = Bytes::new(alloc);
    write_text(tree, &mut text)?;
    put_alone(text.as_slice(), out)
}
