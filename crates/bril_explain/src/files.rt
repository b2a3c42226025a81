// The files of a program are read, one after another, and kept.

ghost use Rattle.std.specs.Prelude.{◌≡◌, ◌≤◌, ◌⊎◌, ◌++◌, ◌∷◌, [], List, None, Some, IfErr, IfOk, MatchOption, OnErr, OnOk, length, slice_get};
ghost use Rattle.std.specs.String.{string_bytes};
ghost use Rattle.bril_outside.specs.Files.{MayHold};
ghost use Rattle.import_linker.specs.Adding.{AddsTooMany};
ghost use Rattle.import_linker.specs.Order.{added, all_added, begins_at_root, folder_of, is_known, joined, most_files, named_in};
ghost use Rattle.import_linker.specs.Reading.{IsRead, RefusesReading, RefusesSource};
ghost use Rattle.import_linker.specs.formats.Reading.{most_bytes};
ghost use Rattle.bril_explain.specs.Kept.{AreAllKept, AreOf, Keeps, KeepsRefused, KeepsSource, StopsIn, bytes_at, unread_as};
ghost use Rattle.bril_explain.specs.declared.kept.KeptFile.{KeptFile};

use crate::kept::KeptFile;
use bril_outside::files::{FileFault, Files};
use bril_tree::bytes::Bytes;
use bril_tree::import::Import;
use bril_tree::sequence::Seq;
use bril_tree::text::Text;
use bril_tree::tree::Tree;
use import_linker::formats::{TreeFault, read_tree};
use import_linker::{LinkFault, Source};
use std::alloc::{AllocError, Global};

// The most bytes that the files of a program have together, and the most files.
const MOST_BYTES: u64 = 16777216;

const MOST_FILES: usize = 256;

// Reads the files of the program whose first file is at the path `root`, in the order in which they are linked, each once, and keeps
// them.
//
// They are refused as they are linked: each for the first of `Read`, `TooManyBytes`, `Bad` and `TooManyFiles`; the file of `Bad` is kept,
// too. `Memory` may come at any time.
pub fn read_files<F: Files>(
    alloc: Global,
    root: &str,
    files: &mut F,
    kept: &mut Seq<KeptFile>,
) -> Result<(), LinkFault>
    requires { kept.old ≡ [] }
    ensures holds { (F.seen files.new).holds ≡ (F.seen files.old).holds }
    ensures faults { (F.seen files.old).faults ≤ (F.seen files.new).faults }
    ensures are { AreOf (F.seen files.old).holds (bytes_at kept.new) }
    ensures ok { OnOk result (AreAllKept kept.new root.now) }
    ensures err { IfErr result (λ fault. RefusesReading fault (F.seen files.old) (F.seen files.new) root.now) }
    ensures stops { IfErr result (λ fault. StopsIn fault kept.new root.now) }
{
    let mut known = Seq::new(alloc);
    known.push(Text::of(alloc, root)?)?;
    let mut total: u64 = 0;
    while let Some(path) = path_at(known.as_slice(), kept.as_slice().len()) {
        let path = Text::of(alloc, path.as_str())?;
        let source = read_next(alloc, files, path, MOST_BYTES - total, kept)?;
        add_imports(
            alloc,
            &mut known,
            &source.path,
            source.tree.imports.as_slice(),
        )?;
        total += source.size;
    }
    Ok(())
}

// Reads the file at the path, of at most `most` bytes, and keeps it. Where its bytes read as no tree it is kept, too.
fn read_next<F: Files>(
    alloc: Global,
    files: &mut F,
    path: Text,
    most: u64,
    kept: &mut Seq<KeptFile>,
) -> Result<Source, LinkFault>
    requires most { most ≤ most_bytes }
    requires first { bytes_at kept.old path ≡ None }
    ensures holds { (F.seen files.new).holds ≡ (F.seen files.old).holds }
    ensures faults { (F.seen files.old).faults ≤ (F.seen files.new).faults }
    ensures keeps { (kept.new ≡ kept.old) ⊎ Keeps (F.seen files.old).holds path kept.old kept.new }
    ensures path { IfOk result (λ s. s.path ≡ path) }
    ensures short { IfOk result (λ s. s.size ≤ most) }
    ensures read { IfOk result (IsRead (F.seen files.old).holds) }
    ensures source { IfOk result (KeepsSource path kept.old kept.new) }
    ensures err { IfErr result (λ fault. RefusesSource fault (F.seen files.old) (F.seen files.new) path most) }
    ensures refused { IfErr result (λ fault. KeepsRefused fault path most kept.new) }
{
    let bytes = read_bytes(alloc, files, &path, most)?;
    let size = bytes.as_slice().len() as u64;
    let read = read_tree(alloc, path.as_bytes(), bytes.as_slice());
    keep(alloc, &path, bytes, functions_in(&read), kept)?;
    match read {
        Ok(tree) => Ok(Source { path, tree, size }),
        Err(fault) => Err(unread_as(path, fault)),
    }
}

// Why there is no source of the file at a path, whose bytes read as no tree.
fn unread_as(path: Text, fault: TreeFault) -> LinkFault
    ensures { result ≡ unread_as path fault }
{
    match fault {
        TreeFault::Misread { fault } => LinkFault::Bad { path, fault },
        TreeFault::Memory => LinkFault::Memory,
    }
}

// The bytes of the file at the path, at most `most`.
fn read_bytes<F: Files>(
    alloc: Global,
    files: &mut F,
    path: &Text,
    most: u64,
) -> Result<Bytes, LinkFault>
    ensures holds { (F.seen files.new).holds ≡ (F.seen files.old).holds }
    ensures faults { (F.seen files.old).faults ≤ (F.seen files.new).faults }
    ensures held { IfOk result (MayHold (F.seen files.old).holds path.now) }
    ensures short { IfOk result (λ bytes. length bytes ≤ most) }
    ensures err { IfErr result (λ fault. RefusesSource fault (F.seen files.old) (F.seen files.new) path.now most) }
    ensures unread { (kept : List KeptFile) → IfErr result (λ fault. KeepsRefused fault path.now most kept) }
{
    let mut bytes = Bytes::new(alloc);
    match files.read(alloc, path, most, &mut bytes) {
        Ok(true) => Ok(bytes),
        Ok(false) => Err(LinkFault::TooManyBytes),
        Err(FileFault::Failed) => Err(LinkFault::Read {
            path: Text::of(alloc, path.as_str())?,
        }),
        Err(FileFault::Memory) => Err(LinkFault::Memory),
    }
}

// How many functions the tree has that was read, 0 where none was.
fn functions_in(read: &Result<Tree, TreeFault>) -> usize
    ensures { IfOk read.now (λ tree. result ≡ length tree.funcs) }
{
    match read {
        Ok(tree) => tree.funcs.as_slice().len(),
        Err(_) => 0,
    }
}

// Keeps a file.
fn keep(
    alloc: Global,
    path: &Text,
    bytes: Bytes,
    functions: usize,
    kept: &mut Seq<KeptFile>,
) -> Result<(), AllocError>
    ensures ok { OnOk result (kept.new ≡ kept.old ++ record { path = path.now; bytes = bytes; functions = functions } ∷ []) }
    ensures err { OnErr result (kept.new ≡ kept.old) }
{
    let path = Text::of(alloc, path.as_str())?;
    kept.push(KeptFile {
        path,
        bytes,
        functions,
    })
}

// The path of a number.
fn path_at(known: &[Text], number: usize) -> Option<&Text>
    ensures { MatchOption result (slice_get known.now number ≡ None) (λ path. slice_get known.now number ≡ Some path.now) }
{
    known.get(number)
}

// Adds the paths of the files that imports of the file at a path name, each unless it is known.
fn add_imports(
    alloc: Global,
    known: &mut Seq<Text>,
    importer: &Text,
    imports: &[Import],
) -> Result<(), LinkFault>
    requires { length known.old ≤ most_files }
    ensures ok { IfOk result (λ _. known.new ≡ all_added known.old (named_in importer.now imports.now)) }
    ensures few { IfOk result (λ _. length known.new ≤ most_files) }
    ensures err { IfErr result (λ fault. AddsTooMany fault known.old (named_in importer.now imports.now)) }
{
    for import in imports {
        let path = joined(alloc, importer, &import.path)?;
        add_path(known, path)?;
    }
    Ok(())
}

// Adds a path unless it is known.
fn add_path(known: &mut Seq<Text>, path: Text) -> Result<(), LinkFault>
    requires { length known.old ≤ most_files }
    ensures ok { IfOk result (λ _. known.new ≡ added known.old path) }
    ensures few { IfOk result (λ _. length known.new ≤ most_files) }
    ensures err { IfErr result (λ fault. AddsTooMany fault known.old (path ∷ [])) }
{
    if is_known(&path, known.as_slice()) {
        return Ok(());
    }
    if known.as_slice().len() == MOST_FILES {
        return Err(LinkFault::TooManyFiles);
    }
    known.push(path)?;
    Ok(())
}

// Whether a path is among these.
fn is_known(path: &Text, known: &[Text]) -> bool
    ensures { result ≡ is_known path.now known.now }
{
    known
        .iter()
        .any(|other| other.as_bytes() == path.as_bytes())
}

// The path that an import names in the file at a path: itself where it begins with `/`, and else after the folder of the file.
fn joined(alloc: Global, importer: &Text, path: &Text) -> Result<Text, AllocError>
    ensures { IfOk result (λ made. made ≡ joined importer.now path.now) }
{
    if begins_at_root(path.as_bytes()) {
        return Text::of(alloc, path.as_str());
    }
    let mut text = folder_of(alloc, importer.as_str())?;
    text.push_str(path.as_str())?;
    Text::of(alloc, text.as_str())
}

// The folder of the file at a path: up to its last `/`, with it.
fn folder_of(alloc: Global, path: &str) -> Result<String, AllocError>
    ensures { IfOk result (λ folder. string_bytes folder ≡ folder_of path.now) }
{
    let mut folder = String::new(alloc);
    let mut rest = path;
    while let Some((part, others)) = rest.split_once('/') {
        folder.push_str(part)?;
        folder.push_str("/")?;
        rest = others;
    }
    Ok(folder)
}

// Whether a path begins with `/`.
fn begins_at_root(path: &[u8]) -> bool
    ensures { result ≡ begins_at_root path.now }
{
    match path {
        [] => false,
        [first, ..] => *first == b'/',
    }
}
