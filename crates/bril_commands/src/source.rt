// The tree of a command's files, or the bytes of its one file.

ghost use Rattle.std.specs.Prelude.{◌≡◌, ◌≤◌, IfOk, IfErr};
ghost use Rattle.bril_commands.specs.Source.{Alone, BytesAlone, HoldsBytes, WithImports, IsTreeAt};
ghost use Rattle.bril_commands.specs.Stages.{RefusesTree};

use bril_outside::files::{FileFault, Files};
use bril_report::Status;
use bril_tree::bytes::Bytes;
use bril_tree::text::Text;
use bril_tree::tree::Tree;
use import_linker::{link, read_source};
use std::alloc::Global;

// The most bytes that a file may have.
const MOST_BYTES: u64 = 16777216;

/// The bytes of the one file at the path, of at most 16,777,216, whatever the path ends in.
///
/// The first of `CannotRead`: the file is not there, or reading it failed; `TooManyBytes`: it has more bytes.
pub fn file_bytes<F: Files>(alloc: Global, path: &str, files: &mut F) -> Result<Bytes, Status>
    ensures holds { (F.seen files.new).holds ≡ (F.seen files.old).holds }
    ensures faults { (F.seen files.old).faults ≤ (F.seen files.new).faults }
    ensures ok { IfOk result (λ bytes. HoldsBytes (F.seen files.old).holds path.now bytes) }
    ensures err { IfErr result (λ status. RefusesTree BytesAlone status (F.seen files.old) (F.seen files.new) path.now) }
{
    let path = Text::of(alloc, path)?;
    let mut bytes = Bytes::new(alloc);
    match files.read(alloc, &path, MOST_BYTES, &mut bytes) {
        Ok(true) => Ok(bytes),
        Ok(false) => Err(Status::TooManyBytes),
        Err(FileFault::Failed) => Err(Status::CannotRead { path }),
        Err(FileFault::Memory) => Err(Status::OutOfMemory),
    }
}

/// The tree of the one file at the path, of at most 16,777,216 bytes, which are read in the format that its path names.
///
/// The first of `CannotRead`: the file is not there, or reading it failed; `TooManyBytes`: it has more bytes; `Misread`: they read as
/// no tree.
pub fn file_tree<F: Files>(alloc: Global, path: &str, files: &mut F) -> Result<Tree, Status>
    ensures holds { (F.seen files.new).holds ≡ (F.seen files.old).holds }
    ensures faults { (F.seen files.old).faults ≤ (F.seen files.new).faults }
    ensures ok { IfOk result (IsTreeAt Alone (F.seen files.old).holds path.now) }
    ensures err { IfErr result (λ status. RefusesTree Alone status (F.seen files.old) (F.seen files.new) path.now) }
{
    let path = Text::of(alloc, path)?;
    let source = read_source(alloc, files, path, MOST_BYTES)?;
    Ok(source.tree)
}

/// The tree of the program whose root is the file at the path: the functions of this file, and of all that it imports.
///
/// Each file is refused for the first of `CannotRead`: it is not there, or reading it failed; `TooManyBytes`: it and those before it
/// have more than 16,777,216 bytes; `Misread`: its bytes read as no tree; `TooManyFiles`: it names a 257th file. Then, file by file,
/// `Clash`: two functions have this name in it; `NotThere`: a function of this name is imported and isn't there, or named and is none.
pub fn linked_tree<F: Files>(alloc: Global, path: &str, files: &mut F) -> Result<Tree, Status>
    ensures holds { (F.seen files.new).holds ≡ (F.seen files.old).holds }
    ensures faults { (F.seen files.old).faults ≤ (F.seen files.new).faults }
    ensures ok { IfOk result (IsTreeAt WithImports (F.seen files.old).holds path.now) }
    ensures err { IfErr result (λ status. RefusesTree WithImports status (F.seen files.old) (F.seen files.new) path.now) }
{
    let path = Text::of(alloc, path)?;
    let tree = link(alloc, files, &path)?;
    Ok(tree)
}
