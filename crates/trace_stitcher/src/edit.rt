// The edit of the tree.

ghost use Rattle.std.specs.Prelude.{◌≡◌, ◌≤◌, List, IfOk, length, map};
ghost use Rattle.std.specs.List.{All, AllPairs, list_any};
ghost use Rattle.bril_tree.specs.Accepted.{IsAccepted};
ghost use Rattle.bril_tree.specs.Size.{IsCounted};
ghost use Rattle.trace_stitcher.specs.matching.Fitting.{HasPath, IsElsewhere, fit_of};
ghost use Rattle.trace_laws.specs.lines.Lines.{bool_type};
ghost use Rattle.trace_laws.specs.lines.Names.{trace_bases};
ghost use Rattle.trace_laws.specs.lines.Traced.{AreLaid, IsLaidTree, Laying};
ghost use Rattle.trace_stitcher.specs.Inserted.{IsInside, IsTracedBy, has_function};

use crate::inserted::inserted_in;
use crate::matching::Fitting;
use crate::sweep::spliced;
use bril_tree::function_tree::FuncTree;
use bril_tree::numbered_function::Func;
use bril_tree::program::Prog;
use bril_tree::tree::Tree;
use pass_make::each_function;
use std::alloc::{AllocError, Global};

// Whether one of the entries is in the function of a number.
fn has_entries(fits: &[Fitting], function: u32) -> bool
    ensures { result ≡ list_any (has_function function) fits.now }
{
    fits.iter().any(|fit| fit.function == function)
}

// The function of this tree with the traces of its entries.
fn traced_function(
    alloc: Global,
    func: &Func,
    tree: FuncTree,
    function: u32,
    fits: &[Fitting],
) -> Result<FuncTree, AllocError>
    requires inside { All (IsInside function (length tree.code)) fits.now }
    requires apart { AllPairs IsElsewhere fits.now }
    requires few { length fits.now ≤ 64 }
    ensures { IfOk result (IsTracedBy func.now function fits.now tree) }
{
    if !has_entries(fits, function) {
        return Ok(tree);
    }
    let inserted = inserted_in(alloc, func, tree.code.as_slice(), function, fits)?;
    let code = spliced(alloc, &inserted, tree.code)?;
    Ok(FuncTree { code, ..tree })
}

// The program's tree with the traces of these entries.
pub(crate) fn traced(alloc: Global, prog: &Prog, fits: &[Fitting]) -> Result<Tree, AllocError>
    requires accepted { IsAccepted prog.now }
    requires counted { IsCounted prog.now }
    requires paths { All (HasPath prog.now) fits.now }
    requires apart { AllPairs IsElsewhere fits.now }
    requires few { length fits.now ≤ 64 }
    ensures { IfOk result (λ tree. (laid : List Laying) → AreLaid trace_bases prog.now 1 (map fit_of fits.now) laid → IsLaidTree prog.now bool_type laid tree) }
{
    each_function(alloc, prog, |number, func, tree| {
        traced_function(alloc, func, tree, number, fits)
    })
}
