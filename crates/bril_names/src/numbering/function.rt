// The numbering of one function.

ghost use Rattle.std.specs.Prelude.{◌≡◌, List, ℕ, length, map, true, IfOk, IfErr};
ghost use Rattle.bril_tree.specs.Numbered.{function_tree};
ghost use Rattle.bril_names.specs.Faults.{Differ, IsSound, argument_names, labels_of};
ghost use Rattle.bril_names.specs.Numbering.{argument_variable, are_called_below, IsFaultWithin};

use super::items::number_items;
use super::names::Names;
use super::variables::Variables;
use crate::fault::NameFault;
use bril_tree::function_tree::{FuncTree, Item};
use bril_tree::name::Name;
use bril_tree::numbered_function::Func;
use bril_tree::sequence::Seq;
use std::alloc::{AllocError, Global};

/// The function of this number, where these are the functions of its program; or its first fault: an argument that
/// stands twice, a label that stands twice, or an item that names a function or a label which isn't there.
pub fn number_function(
    alloc: Global,
    functions: &Names<'_>,
    func: u32,
    function: &FuncTree,
) -> Result<Func, NameFault>
    ensures tree { IfOk result (λ f. function.now ≡ function_tree functions.now f) }
    ensures called { IfOk result (λ f. are_called_below (length functions.now) f ≡ true) }
    ensures sound { IfOk result (λ _. IsSound functions.now function.now) }
    ensures fault { IfErr result (λ fault. IsFaultWithin functions.now func function.now fault) }
{
    let mut vars = number_arguments(alloc, func, function)?;
    let labels = number_labels(alloc, func, function)?;
    let code = number_items(alloc, functions, &labels, &mut vars, func, function)?;
    let Ok(args) = u32::try_from(function.args.as_slice().len()) else {
        return Err(NameFault::Memory);
    };
    Ok(Func {
        name: function.name.copied(alloc)?,
        args,
        vars: vars.into_infos(alloc)?,
        labels: label_names(alloc, function.code.as_slice())?,
        ret: function.ret,
        code,
    })
}

// The arguments, which are the first variables.
fn number_arguments<'t>(
    alloc: Global,
    func: u32,
    function: &'t FuncTree,
) -> Result<Variables<'t>, NameFault>
    ensures vars { IfOk result (λ vars. vars.infos.items ≡ map argument_variable function.now.args) }
    ensures differ { IfOk result (λ _. Differ (argument_names function.now)) }
    ensures fault { (functions : List (List ℕ)) → IfErr result (λ fault. IsFaultWithin functions func function.now fault) }
{
    let mut vars = Variables::new(alloc);
    for arg in function.args.as_slice() {
        if vars.find(&arg.name).is_some() {
            return Err(NameFault::TwiceArg { func });
        }
        vars.append(alloc, &arg.name, Some(arg.ty))?;
    }
    Ok(vars)
}

// The labels in the order of their items.
fn number_labels<'t>(
    alloc: Global,
    func: u32,
    function: &'t FuncTree,
) -> Result<Names<'t>, NameFault>
    requires { Differ (argument_names function.now) }
    ensures labels { IfOk result (λ labels. labels ≡ labels_of function.now.code) }
    ensures differ { IfOk result Differ }
    ensures fault { (functions : List (List ℕ)) → IfErr result (λ fault. IsFaultWithin functions func function.now fault) }
{
    let mut labels = Names::new(alloc);
    for (k, item) in function.code.as_slice().iter().enumerate() {
        let Ok(number) = u32::try_from(k) else {
            return Err(NameFault::Memory);
        };
        if let Item::Label(name) = item {
            if !labels.add(name.as_bytes())? {
                return Err(NameFault::TwiceLabel { func, item: number });
            }
        }
    }
    Ok(labels)
}

// Copies of the labels in the order of their items.
fn label_names(alloc: Global, code: &[Item]) -> Result<Seq<Name>, AllocError>
    ensures { IfOk result (λ labels. labels ≡ labels_of code.now) }
{
    let mut labels = Seq::new(alloc);
    for item in code {
        if let Item::Label(name) = item {
            labels.push(name.copied(alloc)?)?;
        }
    }
    Ok(labels)
}
