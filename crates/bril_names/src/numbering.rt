// From names to numbers.

mod function;
mod items;
mod names;
mod variables;

ghost use Rattle.std.specs.Prelude.{◌≡◌, ◌⊎◌, [], length, map, true, IfOk, IfErr, MatchResult};
ghost use Rattle.std.specs.List.{list_all};
ghost use Rattle.bril_tree.specs.Numbered.{Numbered, function_tree};
ghost use Rattle.bril_tree.specs.declared.program.Prog.{Prog};
ghost use Rattle.bril_tree.specs.declared.tree.Tree.{Tree};
ghost use Rattle.bril_names.specs.Faults.{Differ, HasFault, IsFaultOf, function_names};
ghost use Rattle.bril_names.specs.Numbering.{are_called_below, IsFaultAmong};
ghost use Rattle.bril_names.specs.declared.fault.NameFault.{NameFault};
ghost use Rattle.bril_names.specs.declared.fault.NameFault.TheVariants.{Memory};

use self::function::number_function;
use self::names::Names;
use crate::fault::NameFault;
use bril_tree::function_tree::FuncTree;
use bril_tree::numbered_function::Func;
use bril_tree::program::Prog;
use bril_tree::sequence::Seq;
use bril_tree::tree::Tree;
use std::alloc::Global;

/// The program whose numbering is the tree, which has no imports: functions, labels and items are numbered as
/// they stand; the variables of a function are its arguments and then the others in the order of their first
/// appearance, in an item the destination first. A variable's type is that of its argument or its first
/// destination.
///
/// The first of these faults is answered, in this order: `TwiceFunction` at the first function whose name an
/// earlier one has; `NoMain` where no function is named `main`; then, function by function, `TwiceArg` where two
/// arguments have one name, `TwiceLabel` at the first item that is a label which stands earlier, and at the first
/// item that names a function or a label which isn't there `NoFunction` or, where its functions are all there,
/// `NoLabel`. `Memory` may come at any time, where memory or numbers of 32 bits are wanting.
///
/// Takes time in proportion to the tree.
pub fn number(alloc: Global, tree: &Tree) -> Result<Prog, NameFault>
    requires { tree.now.imports ≡ [] }
    // The program is numbered so, and no other tree or program is.
    ensures found { IfOk result (λ p. Numbered tree.now p) }
    ensures numbers { (p : Prog) → Numbered tree.now p → MatchResult result (λ q. q ≡ p) (λ fault. fault ≡ Memory) }
    ensures alone { IfOk result (λ p. (other : Tree) → Numbered other p → other ≡ tree.now) }

    // A fault is the tree's, and the tree's fault is answered.
    ensures fault { IfErr result (λ fault. IsFaultOf tree.now fault) }
    ensures faults { (why : NameFault) → HasFault tree.now why
        → MatchResult result (λ _. ⊥) (λ fault. (fault ≡ why) ⊎ (fault ≡ Memory)) }
{
    let functions = function_names(alloc, tree)?;
    let Some(main) = functions.find(b"main") else {
        return Err(NameFault::NoMain);
    };
    let funcs = number_functions(alloc, &functions, tree.funcs.as_slice())?;
    Ok(Prog { funcs, main })
}

// The names of the functions, which differ.
fn function_names<'t>(alloc: Global, tree: &'t Tree) -> Result<Names<'t>, NameFault>
    ensures names { IfOk result (λ functions. functions ≡ function_names tree.now) }
    ensures differ { IfOk result Differ }
    ensures fault { IfErr result (λ fault. IsFaultOf tree.now fault) }
{
    let mut functions = Names::new(alloc);
    for (k, function) in tree.funcs.as_slice().iter().enumerate() {
        let Ok(func) = u32::try_from(k) else {
            return Err(NameFault::Memory);
        };
        if !functions.add(function.name.as_bytes())? {
            return Err(NameFault::TwiceFunction { func });
        }
    }
    Ok(functions)
}

// The functions, where these are the names of all of them.
fn number_functions(
    alloc: Global,
    functions: &Names<'_>,
    trees: &[FuncTree],
) -> Result<Seq<Func>, NameFault>
    ensures trees { IfOk result (λ funcs. trees.now ≡ map (function_tree functions.now) funcs) }
    ensures called { IfOk result (λ funcs. list_all (are_called_below (length functions.now)) funcs ≡ true) }
    ensures fault { IfErr result (λ fault. IsFaultAmong functions.now trees.now fault) }
{
    let mut funcs = Seq::new(alloc);
    for (k, tree) in trees.iter().enumerate() {
        let Ok(func) = u32::try_from(k) else {
            return Err(NameFault::Memory);
        };
        funcs.push(number_function(alloc, functions, func, tree)?)?;
    }
    Ok(funcs)
}
