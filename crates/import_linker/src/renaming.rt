// The functions of a file in the tree of all files.

ghost use Rattle.std.specs.Prelude.{◌≡◌, ◌<◌, ◌++◌, ◌∷◌, [], length, map, IfOk, OnOk};
ghost use Rattle.import_linker.specs.Linked.{beside, renamed_function, renamed_item};
ghost use Rattle.import_linker.specs.Names.{callees, callees_of, first_unknown, item_callees};
ghost use Rattle.import_linker.specs.Refusing.{HasAll};

use crate::fault::LinkFault;
use crate::fresh_run::spelled_name;
use crate::table::Table;
use crate::taken::not_there;
use bril_tree::function_tree::{Dest, FuncTree, Item, copied_dest, copied_names};
use bril_tree::name::Name;
use bril_tree::sequence::Seq;
use bril_tree::text::Text;
use std::alloc::{AllocError, Global};

/// Appends the functions of the file at a path, which has a number: with their names in the tree, and with the names that
/// stand beside those of the functions that their items name.
///
/// `NotThere`: this is the first function that an item names and that isn't one of the names.
pub(crate) fn rename_functions(
    alloc: Global,
    path: &Text,
    names: &Table<'_>,
    spelled: &[Name],
    run: usize,
    number: usize,
    functions: &[FuncTree],
    into: &mut Seq<FuncTree>,
) -> Result<(), LinkFault>
    requires run { 0 < run }
    requires beside { length spelled.now ≡ length names.now }
    ensures ok { OnOk result (into.new ≡ into.old ++ map (renamed_function run number (beside names.now spelled.now)) functions.now) }
    ensures all { HasAll path.now (first_unknown names.now (callees functions.now)) result }
{
    for function in functions {
        let name = spelled_name(alloc, run, number, &function.name)?;
        let args = copied_arguments(alloc, function.args.as_slice())?;
        let code = renamed_items(alloc, path, names, spelled, function.code.as_slice())?;
        into.push(FuncTree {
            name,
            args,
            ret: function.ret,
            code,
        })?;
    }
    Ok(())
}

// Copies of arguments.
fn copied_arguments(alloc: Global, args: &[Dest]) -> Result<Seq<Dest>, AllocError>
    ensures { IfOk result (λ copies. copies ≡ args.now) }
{
    let mut copies = Seq::new(alloc);
    for arg in args {
        copies.push(arg.copied(alloc)?)?;
    }
    Ok(copies)
}

// Items where the functions that they name have the names that stand beside theirs.
fn renamed_items(
    alloc: Global,
    path: &Text,
    names: &Table<'_>,
    spelled: &[Name],
    items: &[Item],
) -> Result<Seq<Item>, LinkFault>
    requires { length spelled.now ≡ length names.now }
    ensures ok { IfOk result (λ made. made ≡ map (renamed_item (beside names.now spelled.now)) items.now) }
    ensures all { HasAll path.now (first_unknown names.now (item_callees items.now)) result }
{
    let mut made = Seq::new(alloc);
    for item in items {
        let renamed = renamed_one(alloc, path, names, spelled, item)?;
        made.push(renamed)?;
    }
    Ok(made)
}

// An item where the functions that it names have the names that stand beside theirs.
fn renamed_one(
    alloc: Global,
    path: &Text,
    names: &Table<'_>,
    spelled: &[Name],
    item: &Item,
) -> Result<Item, LinkFault>
    requires { length spelled.now ≡ length names.now }
    ensures ok { IfOk result (λ made. made ≡ renamed_item (beside names.now spelled.now) item.now) }
    ensures all { HasAll path.now (first_unknown names.now (callees_of item.now)) result }
{
    match item {
        Item::Act {
            dest,
            op,
            args,
            funcs,
            labels,
        } => {
            let funcs = names_beside(alloc, path, names, spelled, funcs.as_slice())?;
            Ok(Item::Act {
                dest: copied_dest(alloc, dest)?,
                op: *op,
                args: copied_names(alloc, args.as_slice())?,
                funcs,
                labels: copied_names(alloc, labels.as_slice())?,
            })
        }
        _ => Ok(item.copied(alloc)?),
    }
}

// The names that stand beside these.
fn names_beside(
    alloc: Global,
    path: &Text,
    names: &Table<'_>,
    spelled: &[Name],
    wanted: &[Name],
) -> Result<Seq<Name>, LinkFault>
    requires { length spelled.now ≡ length names.now }
    ensures ok { IfOk result (λ made. made ≡ map (beside names.now spelled.now) wanted.now) }
    ensures all { HasAll path.now (first_unknown names.now wanted.now) result }
{
    let mut made = Seq::new(alloc);
    for name in wanted {
        let renamed = name_beside(alloc, path, names, spelled, name)?;
        made.push(renamed)?;
    }
    Ok(made)
}

// The name that stands beside this one.
fn name_beside(
    alloc: Global,
    path: &Text,
    names: &Table<'_>,
    spelled: &[Name],
    name: &Name,
) -> Result<Name, LinkFault>
    requires { length spelled.now ≡ length names.now }
    ensures ok { IfOk result (λ made. made ≡ beside names.now spelled.now name.now) }
    ensures all { HasAll path.now (first_unknown names.now (name.now ∷ [])) result }
{
    match names.find(name.as_bytes()) {
        Some(place) => Ok(spelled[place].copied(alloc)?),
        None => Err(not_there(alloc, path, name)?),
    }
}
