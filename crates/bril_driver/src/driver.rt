// The driver: the stages from the files to what a command does with them, in order. Each is a call that gives a result, and
// `?` hands its refusal on.

ghost use Rattle.std.specs.Prelude.{◌≡◌, ◌≤◌, length};
ghost use Rattle.bril_commands.specs.Driver.{DoesFiles, DoesProgram};
ghost use Rattle.bril_commands.specs.PassList.{pass_list};
ghost use Rattle.bril_commands.specs.CommandLine.{list_for};
ghost use Rattle.bril_commands.specs.Table.{command, Keeps, KeepsPasses, on_made, on_program};
ghost use Rattle.bril_report.specs.StageFaults.{status_of};
ghost use Rattle.bril_report.specs.Telling.{Telling};
ghost use Rattle.bril_words.specs.Names.{names_of};
ghost use Rattle.bril_words.specs.Request.{IsActionInRange, IsProgramInRange};
ghost use Rattle.bril_words.specs.Seen.{text_seen};

use crate::listed_passes::{ListedPasses, list_for};
use crate::unchanged::{on_bytes, on_file, on_source, on_tree};
use bril_checker::Checked;
use bril_commands::commands::passes::put_transformed;
use bril_commands::program::accepted_program;
use bril_commands::source::{file_bytes, file_tree, linked_tree};
use bril_demo::demo_tree;
use bril_outside::files::Files;
use bril_outside::sink::Sink;
use bril_report::{Outputs, Status};
use bril_words::{Action, PassesAction, ProgramAction, Request, names_of};
use image_commands::demo::demo;
use image_commands::elf::put_file;
use image_commands::emit::put_image;
use image_commands::list::put_listing;
use image_commands::run::run;
use monitor_command::monitor;
use pass_law::Pass;
use std::alloc::Global;

/// Does what a request asks of its files: what the command puts goes to the output, and what it tells of a run or of passes to the
/// error output.
///
/// `text`, `json`, `asm` and `exec` read one file, and the other commands this and all that it imports; together they have at most
/// 16,777,216 bytes. A file of a program is in JSON where its path ends in `.json`, and in text anywhere else. `run`, `passes`, `emit`,
/// `list` and `elf` read the file of a profile, where the request names one, and `monitor` that of its script. `Err`: the status that a stage, or the command, ended with. A stage that refuses puts nothing on the
/// output.
pub fn drive<F: Files, O: Sink, E: Sink>(
    alloc: Global,
    request: Request,
    files: &mut F,
    passes: &mut [Box<dyn Pass>],
    outputs: &mut Outputs<'_, '_, O, E>,
) -> Result<(), Status>
    requires range { IsActionInRange request.action }
    requires few { length (names_of request.list.now) ≤ 64 }
    ensures holds { (F.seen files.new).holds ≡ (F.seen files.old).holds }
    ensures faults { (F.seen files.old).faults ≤ (F.seen files.new).faults }
    ensures does { Telling O.seen E.seen (λ told s t. DoesFiles (command request.entry.action) (status_of result) (pass_list (λ p. meaning p) (λ p. counts p) passes.old passes.new (names_of (list_for request.entry.action request.entry.list.now))) (F.seen files.old) (F.seen files.new) request.entry.path.now (text_seen request.entry.second) request.entry.args.now told s t) outputs.old outputs.new }
    ensures keeps { KeepsPasses (λ p. meaning p) request.entry.action passes.old passes.new }
{
    let names = names_of(alloc, list_for(request.action, request.list))?;
    let mut passes = ListedPasses {
        boxes: passes,
        names: &names,
    };
    do_action(alloc, request, files, &mut passes, outputs)
}

// Does what a request asks, with these passes: the bytes are read, or the tree is made, that it works on, and then dealt with.
fn do_action<F: Files, O: Sink, E: Sink>(
    alloc: Global,
    request: Request,
    files: &mut F,
    passes: &mut ListedPasses<'_, '_>,
    outputs: &mut Outputs<'_, '_, O, E>,
) -> Result<(), Status>
    requires { IsActionInRange request.action }
    ensures same_boxes { passes.new.boxes.ghost_name ≡ passes.old.boxes.ghost_name }
    ensures holds { (F.seen files.new).holds ≡ (F.seen files.old).holds }
    ensures faults { (F.seen files.old).faults ≤ (F.seen files.new).faults }
    ensures does { Telling O.seen E.seen (λ told s t. DoesFiles (command request.entry.action) (status_of result) (pass_list (λ p. meaning p) (λ p. counts p) passes.old.boxes.now passes.new.boxes.now passes.old.names.now) (F.seen files.old) (F.seen files.new) request.entry.path.now (text_seen request.entry.second) request.entry.args.now told s t) outputs.old outputs.new }
    ensures keeps { KeepsPasses (λ p. meaning p) request.entry.action passes.old.boxes.now passes.new.boxes.now }
{
    match request.action {
        Action::File(action) => {
            let tree = file_tree(alloc, request.path, files)?;
            on_file(alloc, action, &tree, outputs.out)
        }
        Action::Tree(action) => {
            let tree = linked_tree(alloc, request.path, files)?;
            on_tree(alloc, action, &tree, outputs.out)
        }
        Action::Program(action) => {
            let tree = linked_tree(alloc, request.path, files)?;
            let program = accepted_program(alloc, &tree)?;
            on_program(alloc, action, request, program, files, passes, outputs)
        }
        Action::Demo { functions } => {
            let tree = demo_tree(alloc, functions)?;
            let program = accepted_program(alloc, &tree)?;
            let names = passes.names;
            demo(alloc, functions, program, passes.boxes, names, outputs)
        }
        Action::Bytes(action) => {
            let bytes = file_bytes(alloc, request.path, files)?;
            on_bytes(
                alloc,
                action,
                request.path,
                bytes.as_slice(),
                request.args,
                outputs.out,
            )
        }
    }
}

// Does this with an accepted program.
fn on_program<F: Files, O: Sink, E: Sink>(
    alloc: Global,
    action: ProgramAction,
    request: Request,
    program: Checked,
    files: &mut F,
    passes: &mut ListedPasses<'_, '_>,
    outputs: &mut Outputs<'_, '_, O, E>,
) -> Result<(), Status>
    requires { IsProgramInRange action }
    ensures same_boxes { passes.new.boxes.ghost_name ≡ passes.old.boxes.ghost_name }
    ensures holds { (F.seen files.new).holds ≡ (F.seen files.old).holds }
    ensures faults { (F.seen files.old).faults ≤ (F.seen files.new).faults }
    ensures does { Telling O.seen E.seen (λ told s t. DoesProgram (on_program action) (status_of result) (pass_list (λ p. meaning p) (λ p. counts p) passes.old.boxes.now passes.new.boxes.now passes.old.names.now) (F.seen files.old) (F.seen files.new) program.prog (text_seen request.entry.second) request.entry.args.now told s t) outputs.old outputs.new }
    ensures keeps { Keeps (λ p. meaning p) (on_program action).takes_passes passes.old.boxes.now passes.new.boxes.now }
{
    match action {
        ProgramAction::AsItStands(action) => {
            on_source(alloc, action, &program, request.args, outputs.out)
        }
        ProgramAction::WithPasses(action) => {
            on_made(alloc, action, request, program, files, passes, outputs)
        }
        ProgramAction::Monitor(settings) => {
            monitor(alloc, &program, request, settings, files, outputs.out)
        }
    }
}

// Does this with what the list of passes makes of an accepted program.
fn on_made<F: Files, O: Sink, E: Sink>(
    alloc: Global,
    action: PassesAction,
    request: Request,
    program: Checked,
    files: &mut F,
    passes: &mut ListedPasses<'_, '_>,
    outputs: &mut Outputs<'_, '_, O, E>,
) -> Result<(), Status>
    ensures same_boxes { passes.new.boxes.ghost_name ≡ passes.old.boxes.ghost_name }
    ensures holds { (F.seen files.new).holds ≡ (F.seen files.old).holds }
    ensures faults { (F.seen files.old).faults ≤ (F.seen files.new).faults }
    ensures does { Telling O.seen E.seen (λ told s t. DoesProgram (on_made action) (status_of result) (pass_list (λ p. meaning p) (λ p. counts p) passes.old.boxes.now passes.new.boxes.now passes.old.names.now) (F.seen files.old) (F.seen files.new) program.prog (text_seen request.entry.second) request.entry.args.now told s t) outputs.old outputs.new }
    ensures keeps { Keeps (λ p. meaning p) (on_made action).takes_passes passes.old.boxes.now passes.new.boxes.now }
{
    let profile = request.second;
    let names = passes.names;
    match action {
        PassesAction::Run(settings) => {
            run(
                alloc,
                program,
                request,
                settings,
                files,
                passes.boxes,
                names,
                outputs,
            )
        }
        PassesAction::Emit { limits } => {
            put_image(
                alloc,
                program,
                profile,
                limits,
                files,
                passes.boxes,
                names,
                outputs.out,
            )
        }
        PassesAction::List { limits } => {
            put_listing(
                alloc,
                program,
                profile,
                limits,
                files,
                passes.boxes,
                names,
                outputs.out,
            )
        }
        PassesAction::Wrap { limits } => {
            put_file(
                alloc,
                program,
                profile,
                limits,
                files,
                passes.boxes,
                names,
                outputs.out,
            )
        }
        PassesAction::Passes => {
            put_transformed(alloc, program, profile, files, passes.boxes, names, outputs)
        }
    }
}
