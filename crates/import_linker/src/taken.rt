// The functions that names in a file stand for.

ghost use Rattle.std.specs.Prelude.{◌≡◌, ◌<◌, ◌++◌, [], map, get_or, IfOk, OnOk};
ghost use Rattle.import_linker.specs.Linked.{spelled};
ghost use Rattle.import_linker.specs.Names.{contains, function_names, meanings, own_functions, taken_functions, taken_of};
ghost use Rattle.import_linker.specs.Refusing.{HasAll};
ghost use Rattle.import_linker.specs.Tables.{AreTables, HaveSame, first_absent, first_outside};

use crate::fault::LinkFault;
use crate::file_numbers::FileNumbers;
use crate::fresh_run::spelled_name;
use crate::known_paths::KnownPaths;
use crate::sources::Source;
use crate::table::Table;
use bril_tree::function_tree::FuncTree;
use bril_tree::import::Taken;
use bril_tree::name::Name;
use bril_tree::sequence::Seq;
use bril_tree::text::Text;
use std::alloc::{AllocError, Global};

/// For each file a table of the names of its own functions.
pub(crate) fn own_tables<'t>(
    alloc: Global,
    sources: &'t [Source],
) -> Result<Seq<Table<'t>>, AllocError>
    ensures { IfOk result (λ tables. AreTables tables sources.now) }
{
    let mut tables = Seq::new(alloc);
    for source in sources {
        let table = own_table(alloc, source.tree.funcs.as_slice())?;
        tables.push(table)?;
    }
    Ok(tables)
}

/// The names in the tree of the functions that the names in a file stand for, in the order of these.
///
/// `NotThere`: this is the first function that the file takes from a file which has none of its name.
pub(crate) fn spelled_meanings(
    alloc: Global,
    paths: &KnownPaths,
    tables: &[Table<'_>],
    run: usize,
    number: usize,
    source: &Source,
) -> Result<Seq<Name>, LinkFault>
    requires { 0 < run }
    ensures ok { IfOk result (λ names. names ≡ map (spelled run) (meanings paths.now number source.now)) }
    ensures all { HasAll source.now.path (first_absent tables.now (taken_of paths.now source.now)) result }
{
    let mut names = Seq::new(alloc);
    let mut files = FileNumbers::new(alloc);
    for import in source.tree.imports.as_slice() {
        let file = files.number_of(alloc, paths, &source.path, &import.path)?;
        spell_taken(
            alloc,
            tables,
            run,
            file,
            &source.path,
            import.names.as_slice(),
            &mut names,
        )?;
    }
    spell_own(alloc, run, number, source.tree.funcs.as_slice(), &mut names)?;
    Ok(names)
}

// A table of the names of functions, which may stand there twice.
fn own_table<'t>(alloc: Global, functions: &'t [FuncTree]) -> Result<Table<'t>, AllocError>
    ensures { IfOk result (λ table. HaveSame table (function_names functions.now)) }
{
    let mut table = Table::new(alloc);
    for function in functions {
        table.add(function.name.as_bytes())?;
    }
    Ok(table)
}

// Appends the names in the tree of functions that the file at a path takes from the file of a number.
fn spell_taken(
    alloc: Global,
    tables: &[Table<'_>],
    run: usize,
    file: usize,
    path: &Text,
    taken: &[Taken],
    names: &mut Seq<Name>,
) -> Result<(), LinkFault>
    requires { 0 < run }
    ensures ok { OnOk result (names.new ≡ names.old ++ map (spelled run) (taken_functions file taken.now)) }
    ensures all { HasAll path.now (first_outside (get_or tables.now file []) taken.now) result }
{
    for function in taken {
        if !is_there(tables, file, function.name.as_bytes()) {
            return Err(not_there(alloc, path, &function.name)?);
        }
        let spelled = spelled_name(alloc, run, file, &function.name)?;
        names.push(spelled)?;
    }
    Ok(())
}

// Whether the file of a number has a function of a name.
fn is_there(tables: &[Table<'_>], file: usize, name: &[u8]) -> bool
    ensures { result ≡ contains (get_or tables.now file []) name.now }
{
    file < tables.len() && tables[file].has(name)
}

/// The fault of a name, in the file at a path, that is the name of no function.
pub(crate) fn not_there(alloc: Global, path: &Text, name: &Name) -> Result<LinkFault, AllocError>
    ensures { IfOk result (λ fault. fault ≡ LinkFault.NotThere path.now name.now) }
{
    Ok(LinkFault::NotThere {
        path: Text::of(alloc, path.as_str())?,
        name: name.copied(alloc)?,
    })
}

// Appends the names in the tree of functions of the file of a number.
fn spell_own(
    alloc: Global,
    run: usize,
    number: usize,
    functions: &[FuncTree],
    names: &mut Seq<Name>,
) -> Result<(), AllocError>
    requires { 0 < run }
    ensures { OnOk result (names.new ≡ names.old ++ map (spelled run) (own_functions number functions.now)) }
{
    for function in functions {
        let spelled = spelled_name(alloc, run, number, &function.name)?;
        names.push(spelled)?;
    }
    Ok(())
}
