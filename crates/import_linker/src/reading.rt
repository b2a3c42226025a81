// The reading of a program's files, one after another.

ghost use Rattle.std.specs.Prelude.{◌≡◌, ◌≤◌, IfOk, IfErr, length};
ghost use Rattle.bril_outside.specs.Files.{ReadTimes};
ghost use Rattle.import_linker.specs.Names.{paths_of};
ghost use Rattle.import_linker.specs.Reading.{AreFiles, IsTriedOnce, RefusesReading, RefusesSource, IsRead};
ghost use Rattle.import_linker.specs.formats.Reading.{most_bytes};

use crate::fault::LinkFault;
use crate::formats::{TreeFault, read_tree};
use crate::known_paths::KnownPaths;
use crate::paths::add_imports;
use crate::sources::{ProgramFiles, Source};
use bril_outside::files::{FileFault, Files};
use bril_tree::bytes::Bytes;
use bril_tree::sequence::Seq;
use bril_tree::text::Text;
use std::alloc::Global;

// The most bytes that files have together.
const MOST_BYTES: u64 = 16777216;

/// The files of a program, by number, and their paths. The root is file 0, and the others are numbered in the order in which they are
/// first named, by the imports of file 0, then of file 1, and so on; they are read in that order, each once.
///
/// Each file is refused for the first of these reasons. `Read`: the file at the path is not there, or reading it failed.
/// `TooManyBytes`: it and those before it have more than 16,777,216 bytes. `Bad`: its bytes read as no tree.
/// `TooManyFiles`: one of its imports names a 257th file. `Memory` may come at any time.
pub(crate) fn read_sources<F: Files>(
    alloc: Global,
    files: &mut F,
    root: &Text,
) -> Result<ProgramFiles, LinkFault>
    ensures holds { (F.seen files.new).holds ≡ (F.seen files.old).holds }
    ensures faults { (F.seen files.old).faults ≤ (F.seen files.new).faults }
    ensures ok { IfOk result (λ read. AreFiles (F.seen files.old).holds root.now read.sources) }
    ensures paths { IfOk result (λ read. read.paths ≡ paths_of read.sources) }
    ensures times { IfOk result (λ read. ReadTimes (F.seen files.old) (length read.sources) (F.seen files.new)) }
    ensures err { IfErr result (λ fault. RefusesReading fault (F.seen files.old) (F.seen files.new) root.now) }
    ensures tried { IfErr result (λ fault. IsTriedOnce fault (F.seen files.old) (F.seen files.new) root.now) }
{
    let mut known = KnownPaths::new(alloc);
    known.add(alloc, root.as_str())?;
    let mut sources = Seq::new(alloc);
    let mut total: u64 = 0;
    while let Some(path) = known.get(sources.as_slice().len()) {
        let path = Text::of(alloc, path)?;
        let source = read_source(alloc, files, path, MOST_BYTES - total)?;
        add_imports(
            alloc,
            &mut known,
            &source.path,
            source.tree.imports.as_slice(),
        )?;
        total += source.size;
        sources.push(source)?;
    }
    Ok(ProgramFiles {
        paths: known,
        sources,
    })
}

/// The file at the path, of at most `most` bytes, read alone.
///
/// The first of `Read`: it is not there, or reading it failed; `TooManyBytes`: it has more bytes; `Bad`: its bytes read as no tree.
/// `Memory` may come at any time.
pub fn read_source<F: Files>(
    alloc: Global,
    files: &mut F,
    path: Text,
    most: u64,
) -> Result<Source, LinkFault>
    requires { most ≤ most_bytes }
    ensures holds { (F.seen files.new).holds ≡ (F.seen files.old).holds }
    ensures faults { (F.seen files.old).faults ≤ (F.seen files.new).faults }
    ensures times { ReadTimes (F.seen files.old) 1 (F.seen files.new) }
    ensures path { IfOk result (λ s. s.path ≡ path) }
    ensures short { IfOk result (λ s. s.size ≤ most) }
    ensures read { IfOk result (IsRead (F.seen files.old).holds) }
    ensures err { IfErr result (λ fault. RefusesSource fault (F.seen files.old) (F.seen files.new) path most) }
{
    let mut bytes = Bytes::new(alloc);
    match files.read(alloc, &path, most, &mut bytes) {
        Ok(true) => {}
        Ok(false) => return Err(LinkFault::TooManyBytes),
        Err(FileFault::Failed) => return Err(LinkFault::Read { path }),
        Err(FileFault::Memory) => return Err(LinkFault::Memory),
    }
    let size = bytes.as_slice().len() as u64;
    match read_tree(alloc, path.as_bytes(), bytes.as_slice()) {
        Ok(tree) => Ok(Source { path, tree, size }),
        Err(TreeFault::Misread { fault }) => Err(LinkFault::Bad { path, fault }),
        Err(TreeFault::Memory) => Err(LinkFault::Memory),
    }
}
