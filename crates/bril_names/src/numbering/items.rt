// The numbering of a function's items.

ghost use Rattle.std.specs.Prelude.{◌≡◌, ◌∷◌, [], All, IfOk, IfErr};
ghost use Rattle.bril_tree.specs.FunctionForm.{listed, assigns_at};
ghost use Rattle.bril_names.specs.Faults.{Differ, IsKnown, argument_names, labels_of};
ghost use Rattle.bril_names.specs.Numbering.{FindsAll, HasLabel, Enters, StandFor, StandsForDest, dest_type, IsNumbering, IsLackOf, IsFaultWithin};

use super::names::Names;
use super::variables::Variables;
use crate::fault::NameFault;
use bril_tree::function_tree::{Dest, FuncTree, Item};
use bril_tree::name::Name;
use bril_tree::numbered::Instr;
use bril_tree::sequence::Seq;
use bril_tree::types::Ty;
use std::alloc::{AllocError, Global};

/// Where an item stands: the number of its function, and its own.
#[derive(Clone, Copy, Drop)]
pub struct ItemNumber {
    pub func: u32,
    pub item: u32,
}

/// The items of the function of this number, whose labels are these. The variables are the arguments before, and
/// all of the function's afterwards.
pub fn number_items<'t>(
    alloc: Global,
    functions: &Names<'_>,
    labels: &Names<'_>,
    vars: &mut Variables<'t>,
    func: u32,
    function: &'t FuncTree,
) -> Result<Seq<Instr>, NameFault>
    requires arguments { Differ (argument_names function.now) }
    requires labels { labels.now ≡ labels_of function.now.code }
    requires labels_differ { Differ labels.now }
    ensures numbered { IfOk result (λ code.
        IsNumbering functions.now labels.now vars.old.infos.items vars.new.infos.items function.now.code code) }
    ensures known { IfOk result (λ _. All (IsKnown functions.now labels.now) function.now.code) }
    ensures fault { IfErr result (λ fault. IsFaultWithin functions.now func function.now fault) }
{
    let mut code = Seq::new(alloc);
    for (k, item) in function.code.as_slice().iter().enumerate() {
        let Ok(number) = u32::try_from(k) else {
            return Err(NameFault::Memory);
        };
        let position = ItemNumber { func, item: number };
        code.push(number_item(alloc, functions, labels, vars, position, item)?)?;
    }
    Ok(code)
}

// The item at a position: the functions and labels that it names are there, and its variables join the others.
fn number_item<'t>(
    alloc: Global,
    functions: &Names<'_>,
    labels: &Names<'_>,
    vars: &mut Variables<'t>,
    position: ItemNumber,
    item: &'t Item,
) -> Result<Instr, NameFault>
    requires { HasLabel labels.now item.now }
    ensures numbered { IfOk result (λ instr.
        IsNumbering functions.now labels.now vars.old.infos.items vars.new.infos.items (item.now ∷ []) (instr ∷ [])) }
    ensures known { IfOk result (λ _. IsKnown functions.now labels.now item.now) }
    ensures fault { IfErr result (λ fault.
        IsLackOf functions.now labels.now position.func position.item item.now fault) }
{
    let ItemNumber { func, item: number } = position;
    match item {
        Item::Label(name) => match labels.find(name.as_bytes()) {
            Some(label) => Ok(Instr::Label(label)),
            None => unreachable!(),
        },
        Item::Const { dest, ty, value } => Ok(Instr::Const {
            dest: vars.enter(alloc, dest, Some(*ty))?,
            ty: *ty,
            value: *value,
        }),
        Item::Act {
            dest,
            op,
            args,
            funcs,
            labels: targets,
        } => {
            let Some(callees) = find_all(alloc, functions, funcs.as_slice())? else {
                return Err(NameFault::NoFunction { func, item: number });
            };
            let Some(targets) = find_all(alloc, labels, targets.as_slice())? else {
                return Err(NameFault::NoLabel { func, item: number });
            };
            Ok(Instr::Act {
                dest: enter_dest(alloc, vars, dest)?,
                ty: type_of(dest),
                op: *op,
                args: enter_all(alloc, vars, args.as_slice())?,
                funcs: callees,
                labels: targets,
            })
        }
    }
}

// The type of a destination, where there is one.
fn type_of(dest: &Option<Dest>) -> Option<Ty>
    ensures { result ≡ dest_type dest.now }
{
    dest.as_ref().map(|dest| dest.ty)
}

// The numbers of names, and None exactly where one of them isn't there.
fn find_all(
    alloc: Global,
    known: &Names<'_>,
    names: &[Name],
) -> Result<Option<Seq<u32>>, AllocError>
    ensures { IfOk result (λ numbers. FindsAll known.now names.now numbers) }
{
    let mut numbers = Seq::new(alloc);
    for name in names {
        let Some(number) = known.find(name.as_bytes()) else {
            return Ok(None);
        };
        numbers.push(number)?;
    }
    Ok(Some(numbers))
}

// The number of a destination, where there is one; its variable is assigned.
fn enter_dest<'t>(
    alloc: Global,
    vars: &mut Variables<'t>,
    dest: &'t Option<Dest>,
) -> Result<Option<u32>, AllocError>
    ensures enters { IfOk result (λ x. Enters vars.old.infos.items vars.new.infos.items (listed x)
        (λ y. assigns_at y x (dest_type dest.now))) }
    ensures named { IfOk result (λ x. StandsForDest vars.new.infos.items x dest.now) }
{
    let Some(dest) = dest else {
        return Ok(None);
    };
    Ok(Some(vars.enter(alloc, &dest.name, Some(dest.ty))?))
}

// The numbers of variables that are read.
fn enter_all<'t>(
    alloc: Global,
    vars: &mut Variables<'t>,
    names: &'t [Name],
) -> Result<Seq<u32>, AllocError>
    ensures enters { IfOk result (λ xs. Enters vars.old.infos.items vars.new.infos.items xs (λ _. None)) }
    ensures named { IfOk result (λ xs. StandFor vars.new.infos.items xs names.now) }
{
    let mut numbers = Seq::new(alloc);
    for name in names {
        numbers.push(vars.enter(alloc, name, None)?)?;
    }
    Ok(numbers)
}
