// The edit of the tree: new names, and `nop` for copies inside a class.

ghost use Rattle.std.specs.Prelude.{◌≡◌, ◌<◌, ◌^◌, ◌-◌, true, false, Some, IfOk, if◌then◌else◌, length, map, slice_get};
ghost use Rattle.bril_tree.specs.Numbered.{dest_tree, item_tree, named, nop_item, variable_names};
ghost use Rattle.bril_names.specs.Range.{AreBelow, AreInRange, IsInRange};
ghost use Rattle.pass_edit_laws.specs.plan.Marked.{with_nops};
ghost use Rattle.bril_tree.specs.FunctionForm.{listed};
ghost use Rattle.flow_graph.specs.Graph.{IsGraphOf};
ghost use Rattle.variable_renaming.specs.Classes.{AreSoundClasses};
ghost use Rattle.variable_renaming.specs.Made.{CopyWithin, IsCopyWithin, MarksCopies, NamesClasses};

use crate::copies::{dest_of, source_of};
use crate::variables::class_of;
use bril_tree::function_tree::{Dest, Item};
use bril_tree::name::Name;
use bril_tree::numbered::Instr;
use bril_tree::numbered_function::Func;
use bril_tree::sequence::Seq;
use bril_tree::types::Ty;
use flow_graph::Graph;
use graph_search::is_marked;
use pass_make::nop;
use std::alloc::{AllocError, Global};

// Whether the item copies a variable to one of its class.
fn is_copy_within(item: &Instr, class: &[u32]) -> bool
    ensures within { result ≡ true → IsCopyWithin item.now class.now }
    ensures other { result ≡ false → IsCopyWithin item.now class.now → ⊥ }
{
    match (dest_of(item), source_of(item)) {
        (Some(x), Some(y)) => class_of(class, x) == class_of(class, y),
        _ => false,
    }
}

// Whether a walk leads to the item at the point, and it copies a variable to one of its class.
fn is_reached_copy(func: &Func, graph: &Graph, class: &[u32], item: &Instr, point: u32) -> bool
    requires graph { IsGraphOf func.now.code graph.now }
    requires here { slice_get func.now.code point ≡ Some item.now }
    requires point { point < length func.now.code }
    ensures within { result ≡ true → CopyWithin func.now class.now point }
    ensures other { result ≡ false → CopyWithin func.now class.now point → ⊥ }
{
    if !graph.reach(point) {
        return false;
    }
    is_copy_within(item, class)
}

// Marks of the reached items that copy a variable to one of its class.
pub(crate) fn self_copies(
    alloc: Global,
    func: &Func,
    graph: &Graph,
    class: &[u32],
) -> Result<Vec<bool>, AllocError>
    requires few { length func.now.code < 2 ^ 32 - 1 }
    requires graph { IsGraphOf func.now.code graph.now }
    ensures { IfOk result (λ marks. MarksCopies func.now class.now marks.items) }
{
    let mut marks = Vec::new(alloc);
    for (point, item) in func.code.as_slice().iter().enumerate() {
        marks.push(is_reached_copy(func, graph, class, item, point as u32))?;
    }
    Ok(marks)
}

// The name of a variable.
fn variable_name(alloc: Global, func: &Func, x: u32) -> Result<Name, AllocError>
    requires { x < length func.now.vars }
    ensures { IfOk result (λ name. name ≡ named (variable_names func.now.vars) x) }
{
    func.vars.as_slice()[x as usize].name.copied(alloc)
}

// The new name of each variable: that of its class.
pub(crate) fn new_names(alloc: Global, func: &Func, class: &[u32]) -> Result<Seq<Name>, AllocError>
    requires { AreSoundClasses func.now class.now }
    ensures { IfOk result (λ names. NamesClasses func.now class.now names) }
{
    let mut names = Seq::new(alloc);
    for x in class {
        names.push(variable_name(alloc, func, *x)?)?;
    }
    Ok(names)
}

// The new name of a variable.
fn new_name(alloc: Global, names: &[Name], x: u32) -> Result<Name, AllocError>
    requires { x < length names.now }
    ensures { IfOk result (λ name. name ≡ named names.now x) }
{
    names[x as usize].copied(alloc)
}

// The new names of variables.
fn renamed(alloc: Global, names: &[Name], numbers: &[u32]) -> Result<Seq<Name>, AllocError>
    requires { AreBelow (length names.now) numbers.now }
    ensures { IfOk result (λ made. made ≡ map (named names.now) numbers.now) }
{
    let mut made = Seq::new(alloc);
    for x in numbers {
        made.push(new_name(alloc, names, *x)?)?;
    }
    Ok(made)
}

// The destination under its new name.
fn renamed_dest(
    alloc: Global,
    names: &[Name],
    dest: Option<u32>,
    ty: Option<Ty>,
) -> Result<Option<Dest>, AllocError>
    requires { AreBelow (length names.now) (listed dest) }
    ensures { IfOk result (λ made. made ≡ dest_tree names.now dest ty) }
{
    match (dest, ty) {
        (Some(x), Some(ty)) => {
            let name = new_name(alloc, names, x)?;
            Ok(Some(Dest { name, ty }))
        }
        _ => Ok(None),
    }
}

// An item with these names.
fn named_item(
    alloc: Global,
    funcs: &[Name],
    vars: &[Name],
    labels_here: &[Name],
    instr: &Instr,
) -> Result<Item, AllocError>
    requires { IsInRange (length funcs.now) (length vars.now) (length labels_here.now) instr.now }
    ensures { IfOk result (λ item. item ≡ item_tree funcs.now vars.now labels_here.now instr.now) }
{
    match instr {
        Instr::Label(label) => Ok(Item::Label(new_name(alloc, labels_here, *label)?)),
        Instr::Const { dest, ty, value } => Ok(Item::Const {
            dest: new_name(alloc, vars, *dest)?,
            ty: *ty,
            value: *value,
        }),
        Instr::Act {
            dest,
            ty,
            op,
            args,
            funcs: callees,
            labels,
        } => Ok(Item::Act {
            dest: renamed_dest(alloc, vars, *dest, *ty)?,
            op: *op,
            args: renamed(alloc, vars, args.as_slice())?,
            funcs: renamed(alloc, funcs, callees.as_slice())?,
            labels: renamed(alloc, labels_here, labels.as_slice())?,
        }),
    }
}

// An item with these names, or `nop`.
fn made_item(
    alloc: Global,
    funcs: &[Name],
    vars: &[Name],
    labels: &[Name],
    instr: &Instr,
    empty: bool,
) -> Result<Item, AllocError>
    requires { IsInRange (length funcs.now) (length vars.now) (length labels.now) instr.now }
    ensures { IfOk result (λ item. item ≡ (if empty then nop_item else item_tree funcs.now vars.now labels.now instr.now)) }
{
    if empty {
        return Ok(nop(alloc));
    }
    named_item(alloc, funcs, vars, labels, instr)
}

// The items of a function with these names, and `nop` for what is marked.
pub(crate) fn made_items(
    alloc: Global,
    funcs: &[Name],
    vars: &[Name],
    func: &Func,
    marks: &[bool],
) -> Result<Seq<Item>, AllocError>
    requires few { length func.now.code < 2 ^ 32 - 1 }
    requires range { AreInRange (length funcs.now) (length vars.now) (length func.now.labels) func.now.code }
    ensures { IfOk result (λ code. code ≡ with_nops nop_item marks.now (map (item_tree funcs.now vars.now func.now.labels) func.now.code)) }
{
    let labels = func.labels.as_slice();
    let mut code = Seq::new(alloc);
    for (point, item) in func.code.as_slice().iter().enumerate() {
        let empty = is_marked(marks, point);
        code.push(made_item(alloc, funcs, vars, labels, item, empty)?)?;
    }
    Ok(code)
}
