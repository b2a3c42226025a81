// From numbered items to items of names.

ghost use Rattle.std.specs.Prelude.{◌≡◌, IfOk, length, map};
ghost use Rattle.bril_tree.specs.FunctionForm.{listed};
ghost use Rattle.bril_tree.specs.Numbered.{variable_names, dest_tree, item_tree};
ghost use Rattle.bril_names.specs.Range.{AreBelow, IsInRange, AreInRange};

use super::names::{copied_name, copied_names};
use bril_tree::function_tree::{Dest, Item};
use bril_tree::numbered::{Instr, VarInfo};
use bril_tree::numbered_function::Func;
use bril_tree::sequence::Seq;
use bril_tree::types::Ty;
use std::alloc::{AllocError, Global};

// The items of the function, which is one of these.
pub fn items_of(alloc: Global, funcs: &[Func], f: &Func) -> Result<Seq<Item>, AllocError>
    requires { AreInRange (length funcs.now) (length f.now.vars) (length f.now.labels) f.now.code }
    ensures { IfOk result (λ code. code ≡ map (item_tree (map (λ g. g.name) funcs.now) (variable_names f.now.vars) f.now.labels) f.now.code) }
{
    let mut code = Seq::new(alloc);
    for item in f.code.as_slice() {
        code.push(item_of(alloc, funcs, f, item)?)?;
    }
    Ok(code)
}

// An item of the function.
fn item_of(alloc: Global, funcs: &[Func], f: &Func, item: &Instr) -> Result<Item, AllocError>
    requires { IsInRange (length funcs.now) (length f.now.vars) (length f.now.labels) item.now }
    ensures { IfOk result (λ i. i ≡ item_tree (map (λ g. g.name) funcs.now) (variable_names f.now.vars) f.now.labels item.now) }
{
    let vars = f.vars.as_slice();
    let labels_here = f.labels.as_slice();
    match item {
        Instr::Label(label) => Ok(Item::Label(copied_name(alloc, labels_here, *label)?)),
        Instr::Const { dest, ty, value } => Ok(Item::Const {
            dest: copied_name(alloc, vars, *dest)?,
            ty: *ty,
            value: *value,
        }),
        Instr::Act {
            dest,
            ty,
            op,
            args,
            funcs: callees,
            labels,
        } => Ok(Item::Act {
            dest: dest_of(alloc, vars, *dest, *ty)?,
            op: *op,
            args: copied_names(alloc, vars, args.as_slice())?,
            funcs: copied_names(alloc, funcs, callees.as_slice())?,
            labels: copied_names(alloc, labels_here, labels.as_slice())?,
        }),
    }
}

// The destination with its type, where there is one.
fn dest_of(
    alloc: Global,
    vars: &[VarInfo],
    dest: Option<u32>,
    ty: Option<Ty>,
) -> Result<Option<Dest>, AllocError>
    requires { AreBelow (length vars.now) (listed dest) }
    ensures { IfOk result (λ d. d ≡ dest_tree (variable_names vars.now) dest ty) }
{
    match (dest, ty) {
        (Some(number), Some(ty)) => {
            let name = copied_name(alloc, vars, number)?;
            Ok(Some(Dest { name, ty }))
        }
        _ => Ok(None),
    }
}
