// What is done with bytes, with a tree, and with a program as it stands: commands that take no list of passes.

ghost use Rattle.std.specs.Prelude.{◌≤◌, [], length};
ghost use Rattle.bril_commands.specs.Driver.{DoesHeld, DoesSource};
ghost use Rattle.bril_commands.specs.Outcome.{Works};
ghost use Rattle.bril_commands.specs.Table.{on_bytes, on_file, on_source, on_tree};
ghost use Rattle.bril_report.specs.StageFaults.{status_of};
ghost use Rattle.bril_words.specs.Request.{IsSourceInRange};
ghost use Rattle.import_linker.specs.formats.Reading.{most_bytes};

use bril_checker::Checked;
use bril_commands::commands::check::put_counts;
use bril_commands::commands::interp::interpret;
use bril_commands::commands::json::put_json;
use bril_commands::commands::recording::put_recorded;
use bril_commands::commands::text::put_text;
use bril_outside::sink::Sink;
use bril_report::Status;
use bril_tree::text::Text;
use bril_tree::tree::Tree;
use bril_words::{BytesAction, FileAction, SourceAction, TreeAction};
use bytes_commands::assemble::put_assembled;
use bytes_commands::execute::execute;
use std::alloc::Global;

// Does this with the bytes of the file at a path.
pub fn on_bytes<O: Sink>(
    alloc: Global,
    action: BytesAction,
    path: &str,
    bytes: &[u8],
    args: &[Text],
    out: &mut O,
) -> Result<(), Status>
    requires { length bytes.now ≤ most_bytes }
    ensures { DoesHeld (on_bytes action) (status_of result) path.now bytes.now args.now [] (O.seen out.old) (O.seen out.new) }
{
    match action {
        BytesAction::Assemble => put_assembled(alloc, path, bytes, out),
        BytesAction::Execute(settings) => execute(alloc, path, bytes, args, settings, out),
    }
}

// Does this with the tree of a file.
pub fn on_file<O: Sink>(
    alloc: Global,
    action: FileAction,
    tree: &Tree,
    out: &mut O,
) -> Result<(), Status>
    ensures { Works (on_file action tree.now) (status_of result) [] (O.seen out.old) (O.seen out.new) }
{
    match action {
        FileAction::WriteText => put_text(alloc, tree, out),
        FileAction::WriteJson => put_json(alloc, tree, out),
    }
}

// Does this with the tree of all files.
pub fn on_tree<O: Sink>(
    alloc: Global,
    action: TreeAction,
    tree: &Tree,
    out: &mut O,
) -> Result<(), Status>
    ensures { Works (on_tree action tree.now) (status_of result) [] (O.seen out.old) (O.seen out.new) }
{
    match action {
        TreeAction::Link => put_text(alloc, tree, out),
    }
}

// Does this with an accepted program as it stands.
pub fn on_source<O: Sink>(
    alloc: Global,
    action: SourceAction,
    program: &Checked,
    args: &[Text],
    out: &mut O,
) -> Result<(), Status>
    requires { IsSourceInRange action }
    ensures { DoesSource (on_source action) (status_of result) program.now.prog args.now (O.seen out.old) (O.seen out.new) }
{
    match action {
        SourceAction::Check => put_counts(alloc, program, out),
        SourceAction::Interpret(settings) => interpret(alloc, program, args, settings, out),
        SourceAction::Record(settings) => put_recorded(alloc, program, args, settings, out),
    }
}
