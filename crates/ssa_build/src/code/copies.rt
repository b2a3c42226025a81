// The `get`s and `set`s that are put in.

ghost use Rattle.std.specs.Prelude.{◌≡◌, ◌==◌, ◌/◌, ◌++◌, IfOk, OnOk, slice_index, slice_index_or};
ghost use Rattle.bril_tree.specs.Typing.{variable_type};
ghost use Rattle.ssa_build.specs.code.Items.{get_items, got_item, kept, put_item, set_items, stays};

use crate::code::items::{name_in, standing};
use crate::code::layout::Layout;
use bril_tree::function_tree::{Dest, Item};
use bril_tree::name::Name;
use bril_tree::numbered::VarInfo;
use bril_tree::operation::Op;
use bril_tree::sequence::Seq;
use bril_tree::types::Ty;
use ssa_search::renaming::WantedGet;
use std::alloc::{AllocError, Global};

// A `get`. Takes no memory.
fn get_item(alloc: Global, name: Name, ty: Ty) -> Item
    ensures { result ≡ got_item name ty }
{
    Item::Act {
        dest: Some(Dest { name, ty }),
        op: Op::Get,
        args: Seq::new(alloc),
        funcs: Seq::new(alloc),
        labels: Seq::new(alloc),
    }
}

// A `set` of the shadow of the first variable to the second one.
fn set_item(alloc: Global, name: Name, from: Name) -> Result<Item, AllocError>
    ensures { IfOk result (λ made. made ≡ put_item name from) }
{
    let mut args = Seq::new(alloc);
    args.push(name)?;
    args.push(from)?;
    Ok(Item::Act {
        dest: None,
        op: Op::Set,
        args,
        funcs: Seq::new(alloc),
        labels: Seq::new(alloc),
    })
}

// The type of a variable, where it has one.
fn type_of(vars: &[VarInfo], x: usize) -> Option<Ty>
    ensures { result ≡ variable_type vars.now x }
{
    match vars.get(x) {
        None => None,
        Some(var) => var.ty,
    }
}

// Whether a `get` stays: it stands for itself.
fn stays(find: &[u32], get: WantedGet) -> bool
    ensures { result ≡ stays find.now get }
{
    let definition = get.definition as usize;
    let stands = if definition < find.len() {
        find[definition]
    } else {
        0
    };
    stands == get.definition
}

/// Those of these `get`s that stay. The only error is out of memory.
pub fn kept(alloc: Global, find: &[u32], gets: &[WantedGet]) -> Result<Vec<WantedGet>, AllocError>
    ensures { IfOk result (λ made. made.items ≡ kept find.now gets.now) }
{
    let mut made = Vec::new(alloc);
    for get in gets {
        if stays(find, *get) {
            made.push(*get)?;
        }
    }
    Ok(made)
}

// Adds the items of these `get`s.
pub(crate) fn push_gets(
    alloc: Global,
    code: &mut Seq<Item>,
    vars: &[VarInfo],
    names: &[Name],
    gets: &[WantedGet],
) -> Result<(), AllocError>
    ensures { OnOk result (code.new ≡ code.old ++ get_items vars.now names.now gets.now) }
{
    for get in gets {
        if let Some(ty) = type_of(vars, get.location as usize / 2) {
            let name = name_in(alloc, names, get.definition)?;
            code.push(get_item(alloc, name, ty))?;
        }
    }
    Ok(())
}

// Adds the `set`s of these `get`s to what their locations have.
pub(crate) fn push_sets(
    alloc: Global,
    code: &mut Seq<Item>,
    layout: &Layout<'_>,
    now: &[u32],
    gets: &[WantedGet],
) -> Result<(), AllocError>
    ensures { OnOk result (code.new ≡ code.old ++ set_items layout.now.names.now layout.now.find.now now.now gets.now) }
{
    for get in gets {
        let name = name_in(alloc, layout.names, get.definition)?;
        let stands = standing(layout.find, now, get.location as usize);
        let from = name_in(alloc, layout.names, stands)?;
        code.push(set_item(alloc, name, from)?)?;
    }
    Ok(())
}
