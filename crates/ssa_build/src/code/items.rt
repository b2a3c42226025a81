// Items under the names of definitions.

ghost use Rattle.std.specs.Prelude.{◌≡◌, ◌*◌, ◌∷◌, [], ℕ, IfOk, map, slice_index};
ghost use Rattle.ssa_build.specs.code.Items.{dest_with, laid_item, moved_item, name_in, read_name, standing, unreached_item};

use crate::code::layout::Layout;
use bril_tree::function_tree::{Dest, Item};
use bril_tree::name::Name;
use bril_tree::operation::Op;
use bril_tree::sequence::Seq;
use pass_make::nop;
use std::alloc::{AllocError, Global};

// The number at a place; 0 past the end.
pub(crate) fn at(list: &[u32], place: usize) -> u32
    ensures { result ≡ slice_index list.now place }
{
    if place < list.len() { list[place] } else { 0 }
}

// What stands for the definition that a location has.
pub(crate) fn standing(find: &[u32], now: &[u32], location: usize) -> u32
    ensures { result ≡ standing find.now now.now location }
{
    at(find, at(now, location) as usize)
}

// The name `v`.
fn plain_name(alloc: Global) -> Result<Name, AllocError>
    ensures { IfOk result (λ name. name ≡ 118 ∷ []) }
{
    Name::of_identifier(alloc, b"v".as_slice())
}

// The name of a definition.
pub(crate) fn name_in(alloc: Global, names: &[Name], definition: u32) -> Result<Name, AllocError>
    ensures { IfOk result (λ name. name ≡ name_in names.now definition) }
{
    if (definition as usize) < names.len() {
        return names[definition as usize].copied(alloc);
    }
    plain_name(alloc)
}

// The names under which an item reads these variables.
fn read_names(
    alloc: Global,
    layout: &Layout<'_>,
    now: &[u32],
    args: &[u32],
) -> Result<Seq<Name>, AllocError>
    ensures { IfOk result (λ made. made ≡ map (read_name layout.now.names.now layout.now.find.now now.now) args.now) }
{
    let mut made = Seq::new(alloc);
    for x in args {
        let definition = standing(layout.find, now, 2 * *x as usize);
        made.push(name_in(alloc, layout.names, definition)?)?;
    }
    Ok(made)
}

// A destination of the name of a definition.
fn dest_with(
    alloc: Global,
    names: &[Name],
    written: u32,
    dest: Option<Dest>,
) -> Result<Option<Dest>, AllocError>
    ensures { IfOk result (λ made. made ≡ dest_with (name_in names.now written) dest) }
{
    match dest {
        None => Ok(None),
        Some(Dest { name: _name, ty }) => {
            let name = name_in(alloc, names, written)?;
            Ok(Some(Dest { name, ty }))
        }
    }
}

// What stands in place of an item that walks reach, which names these variables.
fn moved(
    alloc: Global,
    layout: &Layout<'_>,
    now: &[u32],
    written: u32,
    args: &[u32],
    item: Item,
) -> Result<Item, AllocError>
    ensures { IfOk result (λ made. made ≡ moved_item (map (read_name layout.now.names.now layout.now.find.now now.now) args.now) (name_in layout.now.names.now written) item) }
{
    match item {
        Item::Label(label) => Ok(Item::Label(label)),
        Item::Const {
            dest: _dest,
            ty,
            value,
        } => {
            let dest = name_in(alloc, layout.names, written)?;
            Ok(Item::Const { dest, ty, value })
        }
        Item::Act { op: Op::Get, .. } => Ok(nop(alloc)),
        Item::Act { op: Op::Set, .. } => Ok(nop(alloc)),
        Item::Act {
            dest,
            op,
            args: _args,
            funcs,
            labels,
        } => {
            let dest = dest_with(alloc, layout.names, written, dest)?;
            let args = read_names(alloc, layout, now, args)?;
            Ok(Item::Act {
                dest,
                op,
                args,
                funcs,
                labels,
            })
        }
    }
}

// What stands in place of an item that no walk reaches.
fn unreached(alloc: Global, item: Item) -> Item
    ensures { result ≡ unreached_item item }
{
    match item {
        Item::Label(label) => Item::Label(label),
        _ => nop(alloc),
    }
}

/// What stands in place of an item of a function, which names these variables and has its destination as the definition
/// `written`: the item under the names of definitions, `nop` for a `get` or a `set`, and for an item that no walk reaches `nop`,
/// unless it is a label. `now` has the definition of each location. The only error is out of memory.
pub(crate) fn laid_item(
    alloc: Global,
    layout: &Layout<'_>,
    now: &[u32],
    reached: bool,
    written: u32,
    args: &[u32],
    item: Item,
) -> Result<Item, AllocError>
    ensures { IfOk result (λ made. made ≡ laid_item reached (map (read_name layout.now.names.now layout.now.find.now now.now) args.now) (name_in layout.now.names.now written) item) }
{
    if reached {
        return moved(alloc, layout, now, written, args, item);
    }
    Ok(unreached(alloc, item))
}
