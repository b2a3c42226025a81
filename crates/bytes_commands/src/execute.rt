// `exec`: the machine runs the image that a file has, with ints on its stack.

ghost use Rattle.std.specs.Prelude.{◌≡◌, ◌-◌, ◌⊎◌, [], IfOk, IfErr};
ghost use Rattle.bril_commands.specs.Driver.{DoesHeld};
ghost use Rattle.bril_commands.specs.commands.Execute.{AreOnStack, HoldImage, RefusesFile, RefusesInts, executes};
ghost use Rattle.bril_report.specs.StageFaults.{elf_status, status_of};
ghost use Rattle.bril_report.specs.declared.status.Status.TheVariants.{OutOfMemory};

use crate::run::run_with;
use bril_arguments::read_ints;
use bril_outside::sink::Sink;
use bril_report::Status;
use bril_tree::sequence::Seq;
use bril_tree::text::Text;
use bril_tree::value::Value;
use bril_words::MachineSettings;
use elf_wrap::{ElfFault, open_elf};
use rv64_words::image::Image;
use std::alloc::{AllocError, Global};

/// Runs the image of which the bytes of the file at the path are the ELF file on the machine, for so many words of it, with the ints that
/// the words spell on its stack: what it prints goes to the output. The limit of frames is not looked at.
///
/// `MisreadElf`: the bytes are no such file, at this byte offset first. `CodeTooBig`, `StackTooBig`: the image has more than 250,000 words,
/// or more than 8,388,608 words of stack. `BadArgument`: this word, from 1, is the first that spells no int. `ArgumentRoom`: the stack has
/// room for fewer ints. With these, and out of memory, nothing is put. `Faulted`, `Trapped`, `Spent`: the machine stopped with a fault or by
/// a trap, or goes on after so many words. `CannotWrite`: a write failed.
pub fn execute<O: Sink>(
    alloc: Global,
    path: &str,
    bytes: &[u8],
    args: &[Text],
    settings: MachineSettings,
    out: &mut O,
) -> Result<(), Status>
    ensures { DoesHeld (executes settings.limits.cells settings.steps) (status_of result) path.now bytes.now args.now [] (O.seen out.old) (O.seen out.new) }
{
    let image = image_at(alloc, path, bytes)?;
    let values = values_of(alloc, &image, args)?;
    run_with(alloc, &image, values.as_slice(), settings, out)
}

// The image of which the bytes are the file, or the status of their fault.
fn image_at(alloc: Global, path: &str, bytes: &[u8]) -> Result<Image, Status>
    ensures ok { IfOk result (λ image. HoldImage bytes.now image) }
    ensures err { IfErr result (λ status. RefusesFile status path.now bytes.now) }
{
    match open_elf(alloc, bytes) {
        Ok(image) => Ok(image),
        Err(fault) => Err(refusal(alloc, path, fault)),
    }
}

// The status of a fault of the file at the path; out of memory where there is none for a copy of the path.
fn refusal(alloc: Global, path: &str, fault: ElfFault) -> Status
    ensures { (result ≡ elf_status path.now fault) ⊎ (result ≡ OutOfMemory) }
{
    match Text::of(alloc, path) {
        Ok(path) => Status::from((path, fault)),
        Err(AllocError) => Status::OutOfMemory,
    }
}

// The ints that the words spell, for which the stack of the image has room.
fn values_of(alloc: Global, image: &Image, args: &[Text]) -> Result<Seq<Value>, Status>
    ensures ok { IfOk result (λ values. AreOnStack image.now args.now values) }
    ensures err { IfErr result (λ status. RefusesInts status image.now args.now) }
{
    // No command line has as many words.
    if args.len() > 4294967295 {
        return Err(Status::OutOfMemory);
    }
    let values = read_ints(alloc, args)?;
    let given = args.len() as u64;
    if (image.stack as u64) < given + 2 {
        return Err(Status::ArgumentRoom {
            given,
            room: room_for(image),
        });
    }
    Ok(values)
}

// For how many arguments the stack of an image has room, behind the two words that a frame begins with.
fn room_for(image: &Image) -> u64
    ensures { result ≡ image.now.stack - 2 }
{
    (image.stack as u64).saturating_sub(2)
}
