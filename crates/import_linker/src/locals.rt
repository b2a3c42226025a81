// The names in a file: those of the functions that it takes, and its own.

ghost use Rattle.std.specs.Prelude.{◌≡◌, [], ◌∷◌, ◌++◌, IfOk, OnOk};
ghost use Rattle.import_linker.specs.Names.{function_names, local_name, local_names, names_taken};
ghost use Rattle.import_linker.specs.Refusing.{Adds};

use crate::fault::LinkFault;
use crate::sources::Source;
use crate::table::Table;
use bril_tree::function_tree::FuncTree;
use bril_tree::import::Taken;
use bril_tree::name::Name;
use bril_tree::text::Text;
use std::alloc::{AllocError, Global};

/// The names in a file, imports before functions and each in order, which differ.
///
/// `Clash`: this is the first that stands before it, too.
pub(crate) fn local_names<'t>(alloc: Global, source: &'t Source) -> Result<Table<'t>, LinkFault>
    ensures ok { IfOk result (λ names. names ≡ local_names source.now) }
    ensures adds { Adds source.now.path [] (local_names source.now) result }
{
    let mut names = Table::new(alloc);
    for import in source.tree.imports.as_slice() {
        add_taken(alloc, &mut names, &source.path, import.names.as_slice())?;
    }
    add_functions(
        alloc,
        &mut names,
        &source.path,
        source.tree.funcs.as_slice(),
    )?;
    Ok(names)
}

// Adds the names of the functions that an import takes.
fn add_taken<'t>(
    alloc: Global,
    names: &mut Table<'t>,
    path: &Text,
    taken: &'t [Taken],
) -> Result<(), LinkFault>
    ensures ok { OnOk result (names.new ≡ names.old ++ names_taken taken.now) }
    ensures adds { Adds path.now names.old (names_taken taken.now) result }
{
    for function in taken {
        add_local(alloc, names, path, local_name(function))?;
    }
    Ok(())
}

// Adds the names of functions.
fn add_functions<'t>(
    alloc: Global,
    names: &mut Table<'t>,
    path: &Text,
    functions: &'t [FuncTree],
) -> Result<(), LinkFault>
    ensures ok { OnOk result (names.new ≡ names.old ++ function_names functions.now) }
    ensures adds { Adds path.now names.old (function_names functions.now) result }
{
    for function in functions {
        add_local(alloc, names, path, &function.name)?;
    }
    Ok(())
}

// Adds a name, which is not to be there.
fn add_local<'t>(
    alloc: Global,
    names: &mut Table<'t>,
    path: &Text,
    name: &'t Name,
) -> Result<(), LinkFault>
    ensures ok { OnOk result (names.new ≡ names.old ++ name.now ∷ []) }
    ensures adds { Adds path.now names.old (name.now ∷ []) result }
{
    if names.add(name.as_bytes())? {
        return Ok(());
    }
    Err(clash(alloc, path, name)?)
}

// The fault of a name that stands twice in the file at a path.
fn clash(alloc: Global, path: &Text, name: &Name) -> Result<LinkFault, AllocError>
    ensures { IfOk result (λ fault. fault ≡ LinkFault.Clash path.now name.now) }
{
    Ok(LinkFault::Clash {
        path: Text::of(alloc, path.as_str())?,
        name: name.copied(alloc)?,
    })
}

// The name that a taken function has here.
fn local_name(taken: &Taken) -> &Name
    ensures { result.now ≡ local_name taken.now }
{
    match &taken.alias {
        Some(alias) => alias,
        None => &taken.name,
    }
}
