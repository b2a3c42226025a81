// The paths of files.

ghost use Rattle.std.specs.Prelude.{◌≡◌, ◌≤◌, ◌++◌, ◌∷◌, [], length, IfOk, IfErr, OnOk};
ghost use Rattle.std.specs.String.{string_bytes};
ghost use Rattle.import_linker.specs.Adding.{AddsTooMany};
ghost use Rattle.import_linker.specs.Looked.{AreKnown};
ghost use Rattle.import_linker.specs.Order.{joined, folder_of, begins_at_root, added, all_added, named_in, most_files};

use crate::fault::LinkFault;
use crate::known_paths::KnownPaths;
use crate::table::Table;
use bril_tree::import::Import;
use bril_tree::text::Text;
use std::alloc::{AllocError, Global};

// The most files of a program.
const MOST_FILES: usize = 256;

/// Adds the files that imports of the file at a path name, each unless it is known.
pub(crate) fn add_imports(
    alloc: Global,
    known: &mut KnownPaths,
    importer: &Text,
    imports: &[Import],
) -> Result<(), LinkFault>
    requires { length known.old ≤ most_files }
    ensures ok { IfOk result (λ _. known.new ≡ all_added known.old (named_in importer.now imports.now)) }
    ensures few { IfOk result (λ _. length known.new ≤ most_files) }
    ensures err { IfErr result (λ fault. AddsTooMany fault known.old (named_in importer.now imports.now)) }
{
    let mut seen = Table::new(alloc);
    for import in imports {
        add_import(alloc, known, importer, &import.path, &mut seen)?;
    }
    Ok(())
}

// Adds the file that a path names in the file of the importer, unless it is known. The paths that were seen are: those are looked at
// no more.
fn add_import<'t>(
    alloc: Global,
    known: &mut KnownPaths,
    importer: &Text,
    path: &'t Text,
    seen: &mut Table<'t>,
) -> Result<(), LinkFault>
    requires few { length known.old ≤ most_files }
    requires known { AreKnown known.old importer.now seen.old }
    ensures ok { IfOk result (λ _. known.new ≡ added known.old (joined importer.now path.now)) }
    ensures few { IfOk result (λ _. length known.new ≤ most_files) }
    ensures known { OnOk result (AreKnown known.new importer.now seen.new) }
    ensures err { IfErr result (λ fault. AddsTooMany fault known.old (joined importer.now path.now ∷ [])) }
{
    if seen.has(path.as_bytes()) {
        return Ok(());
    }
    let whole = joined(alloc, importer, path)?;
    add_path(alloc, known, &whole)?;
    seen.add(path.as_bytes())?;
    Ok(())
}

// Adds a path unless it is known.
fn add_path(alloc: Global, known: &mut KnownPaths, path: &Text) -> Result<(), LinkFault>
    requires { length known.old ≤ most_files }
    ensures ok { IfOk result (λ _. known.new ≡ added known.old path.now) }
    ensures few { IfOk result (λ _. length known.new ≤ most_files) }
    ensures err { IfErr result (λ fault. AddsTooMany fault known.old (path.now ∷ [])) }
{
    if known.has(path.as_str()) {
        return Ok(());
    }
    if known.count() == MOST_FILES {
        return Err(LinkFault::TooManyFiles);
    }
    known.add(alloc, path.as_str())?;
    Ok(())
}

/// The path that an import names in the file at a path: itself where it begins with `/`, and else after the folder of the file.
pub(crate) fn joined(alloc: Global, importer: &Text, path: &Text) -> Result<Text, AllocError>
    ensures { IfOk result (λ made. made ≡ joined importer.now path.now) }
{
    if begins_at_root(path.as_bytes()) {
        return Text::of(alloc, path.as_str());
    }
    let mut text = folder_of(alloc, importer.as_str())?;
    text.push_str(path.as_str())?;
    Text::of(alloc, text.as_str())
}

// The folder of the file at a path: up to its last `/`, with it.
fn folder_of(alloc: Global, path: &str) -> Result<String, AllocError>
    ensures { IfOk result (λ folder. string_bytes folder ≡ folder_of path.now) }
{
    let mut folder = String::new(alloc);
    let mut rest = path;
    while let Some((part, others)) = rest.split_once('/') {
        folder.push_str(part)?;
        folder.push_str("/")?;
        rest = others;
    }
    Ok(folder)
}

// Whether a path begins with `/`.
fn begins_at_root(path: &[u8]) -> bool
    ensures { result ≡ begins_at_root path.now }
{
    match path {
        [] => false,
        [first, ..] => *first == b'/',
    }
}
