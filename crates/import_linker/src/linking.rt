// A file and all that it imports, as one tree.

ghost use Rattle.std.specs.Prelude.{◌≡◌, ◌<◌, ◌≤◌, ◌++◌, IfOk, IfErr, OnOk};
ghost use Rattle.import_linker.specs.Linked.{linked_file, IsFreshRun, IsTreeOf, Linked, LinkedByReads};
ghost use Rattle.import_linker.specs.Names.{fault_from, names_at, paths_of};
ghost use Rattle.import_linker.specs.Reading.{IsTriedOnce};
ghost use Rattle.import_linker.specs.Refusing.{AreNamed, RefusesLink};
ghost use Rattle.import_linker.specs.Tables.{fault_by};

use crate::fault::LinkFault;
use crate::fresh_run::fresh_run;
use crate::known_paths::KnownPaths;
use crate::locals::local_names;
use crate::reading::read_sources;
use crate::renaming::rename_functions;
use crate::sources::Source;
use crate::table::Table;
use crate::taken::{own_tables, spelled_meanings};
use bril_outside::files::Files;
use bril_tree::function_tree::FuncTree;
use bril_tree::sequence::Seq;
use bril_tree::text::Text;
use bril_tree::tree::Tree;
use std::alloc::{AllocError, Global};

/// The tree of the program whose root is at a path: the functions of all its files. The root is file 0, and the other files
/// are numbered in the order in which they are first named, by the imports of file 0, then of file 1, and so on; each is read
/// once, and files may import each other. The path of an import that begins with `/` stands as it is, and any other after the
/// importing path up to its last `/`.
///
/// The functions of file 0 keep their names. Function `g` of file `k` has the name `g` with `k` and `.` before it, and before
/// these as few `_` as possible, at least one, such that no function of file 0 has a name that begins with so many `_` and a
/// digit. A function that an item names is the file's own, or the one that an import brings under that name.
///
/// Files are read before names are looked at. Each file is refused for the first of `Read`: it is not there, or reading it
/// failed; `TooManyBytes`: it and those before it have more than 16,777,216 bytes; `Bad`: its bytes read as no tree;
/// `TooManyFiles`: one of its imports names a 257th file. Then, file by file, the first of `Clash`: this is the first name of
/// a function, of the imports and then of the functions, that stands there before; `NotThere`: this is the first function
/// that is imported from a file which doesn't have it, by its name there, or the first that an item names and that is none.
/// `Memory` may come at any time.
pub fn link<F: Files>(alloc: Global, files: &mut F, root: &Text) -> Result<Tree, LinkFault>
    ensures holds { (F.seen files.new).holds ≡ (F.seen files.old).holds }
    ensures faults { (F.seen files.old).faults ≤ (F.seen files.new).faults }
    ensures ok { IfOk result (Linked (F.seen files.old).holds root.now) }
    ensures times { IfOk result (LinkedByReads (F.seen files.old) (F.seen files.new) root.now) }
    ensures err { IfErr result (λ fault. RefusesLink fault (F.seen files.old) (F.seen files.new) root.now) }
    ensures tried { IfErr result (λ fault. IsTriedOnce fault (F.seen files.old) (F.seen files.new) root.now) }
{
    let read = read_sources(alloc, files, root)?;
    let tree = linked_tree(alloc, &read.paths, read.sources.as_slice())?;
    Ok(tree)
}

// The tree of files, or the first fault of their names.
fn linked_tree(alloc: Global, paths: &KnownPaths, sources: &[Source]) -> Result<Tree, LinkFault>
    requires { paths.now ≡ paths_of sources.now }
    ensures ok { IfOk result (IsTreeOf sources.now) }
    ensures named { AreNamed (fault_from sources.now 0 sources.now) result }
{
    let tables = own_tables(alloc, sources)?;
    let run = first_run(alloc, sources)?;
    let mut funcs = Seq::new(alloc);
    for (number, source) in sources.iter().enumerate() {
        link_file(
            alloc,
            paths,
            tables.as_slice(),
            run,
            number,
            source,
            &mut funcs,
        )?;
    }
    Ok(Tree {
        imports: Seq::new(alloc),
        funcs,
    })
}

// The fresh run of `_` for the names of file 0.
fn first_run(alloc: Global, sources: &[Source]) -> Result<usize, AllocError>
    ensures { IfOk result (IsFreshRun (names_at sources.now 0)) }
{
    match sources {
        [] => fresh_run(alloc, &[]),
        [first, ..] => fresh_run(alloc, first.tree.funcs.as_slice()),
    }
}

// Appends the functions of a file in the tree of all files.
fn link_file(
    alloc: Global,
    paths: &KnownPaths,
    tables: &[Table<'_>],
    run: usize,
    number: usize,
    source: &Source,
    funcs: &mut Seq<FuncTree>,
) -> Result<(), LinkFault>
    requires { 0 < run }
    ensures ok { OnOk result (funcs.new ≡ funcs.old ++ linked_file run paths.now number source.now) }
    ensures named { AreNamed (fault_by tables.now paths.now source.now) result }
{
    let names = local_names(alloc, source)?;
    let spelled = spelled_meanings(alloc, paths, tables, run, number, source)?;
    rename_functions(
        alloc,
        &source.path,
        &names,
        spelled.as_slice(),
        run,
        number,
        source.tree.funcs.as_slice(),
        funcs,
    )?;
    Ok(())
}
