// The edit of the tree.

ghost use Rattle.std.specs.Prelude.{◌≡◌, ◌<◌, ℕ, None, true, false, is_some, length, slice_index_or, IfOk, IsTrue};
ghost use Rattle.bril_names.specs.Range.{AreBelow};
ghost use Rattle.bril_tree.specs.Accepted.{IsAccepted};
ghost use Rattle.bril_tree.specs.FunctionForm.{variables_of};
ghost use Rattle.bril_tree.specs.Identifier.{is_identifier};
ghost use Rattle.bril_tree.specs.Numbered.{named, variable_names};
ghost use Rattle.bril_tree.specs.Shape.{is_shaped, shape_fault_of};
ghost use Rattle.bril_tree.specs.Size.{IsCounted};
ghost use Rattle.bril_tree.specs.Typing.{variable_type};
ghost use Rattle.ssa_exit.specs.Fresh.{shadow_names};
ghost use Rattle.ssa_exit.specs.Unssaed.{IsLeftAt, IsLeftFunction, IsUnssaedTree, copy_item, got_item, is_written, left_item, left_items, set_item, undef_item};

use crate::fresh::{free_stem, shadow_name};
use crate::written::{argument, written_shadows};
use bril_tree::function_tree::{Dest, FuncTree, Item};
use bril_tree::name::Name;
use bril_tree::numbered::Instr;
use bril_tree::numbered_function::Func;
use bril_tree::operation::Op;
use bril_tree::program::Prog;
use bril_tree::sequence::Seq;
use bril_tree::tree::Tree;
use bril_tree::types::Ty;
use graph_search::is_marked;
use pass_make::{each_function, nop};
use std::alloc::{AllocError, Global};

// The program's tree, in which each shadow is a variable of its own.
pub(crate) fn unssaed(alloc: Global, prog: &Prog) -> Result<Tree, AllocError>
    requires accepted { IsAccepted prog.now }
    requires counted { IsCounted prog.now }
    ensures { IfOk result (λ tree. IsUnssaedTree prog.now tree) }
{
    each_function(alloc, prog, |_number, func, function| {
        unssaed_function(alloc, func, function)
    })
}

// The function of this tree, in which each shadow is a variable of its own.
fn unssaed_function(alloc: Global, func: &Func, function: FuncTree) -> Result<FuncTree, AllocError>
    requires shaped { shape_fault_of (is_some func.now.ret) func.now.code ≡ None }
    requires long { length function.code ≡ length func.now.code }
    ensures { IfOk result (IsLeftFunction func.now function) }
{
    let written = written_shadows(alloc, func)?;
    let stem = free_stem(alloc, func.vars.as_slice())?;
    left_function(alloc, func, function, written.as_slice(), stem.as_slice())
}

// The function of this tree, whose shadows become variables of names with this stem. The marks say which shadows are written.
fn left_function(
    alloc: Global,
    func: &Func,
    function: FuncTree,
    written: &[bool],
    stem: &[u8],
) -> Result<FuncTree, AllocError>
    requires shaped { shape_fault_of (is_some func.now.ret) func.now.code ≡ None }
    requires long { length function.code ≡ length func.now.code }
    requires written { (x : ℕ) → x < length func.now.vars → slice_index_or written.now x false ≡ is_written func.now.code x }
    requires stem { IsTrue (is_identifier stem.now) }
    ensures { IfOk result (λ made. made ≡ record function { code = left_items func.now (shadow_names stem.now func.now.vars) func.now.code function.code }) }
{
    let mut code = Seq::new(alloc);
    let mut point = 0;
    for item in function.code.into_items() {
        code.push(left_at(alloc, func, written, stem, point, item)?)?;
        point += 1;
    }
    Ok(FuncTree { code, ..function })
}

// What stands in place of the item at a point of the function, which has this tree.
fn left_at(
    alloc: Global,
    func: &Func,
    written: &[bool],
    stem: &[u8],
    point: usize,
    item: Item,
) -> Result<Item, AllocError>
    requires shaped { shape_fault_of (is_some func.now.ret) func.now.code ≡ None }
    requires point { point < length func.now.code }
    requires written { (x : ℕ) → x < length func.now.vars → slice_index_or written.now x false ≡ is_written func.now.code x }
    requires stem { IsTrue (is_identifier stem.now) }
    ensures { IfOk result (IsLeftAt func.now (shadow_names stem.now func.now.vars) point item) }
{
    let instr = &func.code.as_slice()[point];
    left(alloc, func, written, stem, instr, item)
}

// What stands in place of an item of the function, by numbers and by names.
fn left(
    alloc: Global,
    func: &Func,
    written: &[bool],
    stem: &[u8],
    instr: &Instr,
    item: Item,
) -> Result<Item, AllocError>
    requires known { AreBelow (length func.now.vars) (variables_of instr.now) }
    requires shaped { is_shaped (is_some func.now.ret) instr.now ≡ true }
    requires written { (x : ℕ) → x < length func.now.vars → slice_index_or written.now x false ≡ is_written func.now.code x }
    requires stem { IsTrue (is_identifier stem.now) }
    ensures { IfOk result (λ made. made ≡ left_item func.now (shadow_names stem.now func.now.vars) instr.now item) }
{
    match instr {
        Instr::Act {
            dest: Some(x),
            ty: Some(ty),
            op: Op::Get,
            ..
        } => got(alloc, func, written, stem, *x, *ty),
        Instr::Act {
            op: Op::Set,
            args,
            ..
        } => {
            let args = args.as_slice();
            set(alloc, func, stem, argument(args, 0), argument(args, 1))
        }
        _ => Ok(item),
    }
}

// What stands in place of a `get` of the variable, which has this type.
fn got(
    alloc: Global,
    func: &Func,
    written: &[bool],
    stem: &[u8],
    x: u32,
    ty: Ty,
) -> Result<Item, AllocError>
    requires known { x < length func.now.vars }
    requires written { slice_index_or written.now x false ≡ is_written func.now.code x }
    requires stem { IsTrue (is_identifier stem.now) }
    ensures { IfOk result (λ made. made ≡ got_item func.now (shadow_names stem.now func.now.vars) x ty) }
{
    let name = &func.vars.as_slice()[x as usize].name;
    if is_marked(written, x as usize) {
        let from = shadow_name(alloc, stem, name)?;
        return copy(alloc, name.copied(alloc)?, ty, from);
    }
    Ok(undef(alloc, name.copied(alloc)?, ty))
}

// What stands in place of a `set` of the shadow of x to y.
fn set(alloc: Global, func: &Func, stem: &[u8], x: u32, y: u32) -> Result<Item, AllocError>
    requires known { x < length func.now.vars }
    requires given { y < length func.now.vars }
    requires stem { IsTrue (is_identifier stem.now) }
    ensures { IfOk result (λ made. made ≡ set_item func.now (shadow_names stem.now func.now.vars) (variable_type func.now.vars x) x y) }
{
    let vars = func.vars.as_slice();
    let shadowed = &vars[x as usize];
    match shadowed.ty {
        None => Ok(nop(alloc)),
        Some(ty) => {
            let to = shadow_name(alloc, stem, &shadowed.name)?;
            copy(alloc, to, ty, vars[y as usize].name.copied(alloc)?)
        }
    }
}

// A copy.
fn copy(alloc: Global, to: Name, ty: Ty, from: Name) -> Result<Item, AllocError>
    ensures { IfOk result (λ made. made ≡ copy_item to ty from) }
{
    let mut args = Seq::new(alloc);
    args.push(from)?;
    Ok(Item::Act {
        dest: Some(Dest { name: to, ty }),
        op: Op::Id,
        args,
        funcs: Seq::new(alloc),
        labels: Seq::new(alloc),
    })
}

// A variable that gets some value. Takes no memory.
fn undef(alloc: Global, name: Name, ty: Ty) -> Item
    ensures { result ≡ undef_item name ty }
{
    Item::Act {
        dest: Some(Dest { name, ty }),
        op: Op::Undef,
        args: Seq::new(alloc),
        funcs: Seq::new(alloc),
        labels: Seq::new(alloc),
    }
}
