// The checker.

ghost use Rattle.std.specs.Prelude.{◌≡◌, ◌⊎◌, ◌<◌, ◌^◌, ◌-◌, ◌↔◌, IsTrue, ℕ, Some, None, List, All, length, map, slice_get, is_some, IfOk, IfErr, MatchResult, ⊤};
ghost use Rattle.std.specs.List.{AllZip};
ghost use Rattle.bril_tree.specs.Accepted.{IsAccepted, IsAcceptedFunction, IsMainPlain, IsPlainType};
ghost use Rattle.bril_tree.specs.FrameWords.{AreFrameWords};
ghost use Rattle.bril_tree.specs.Shape.{shape_fault_of};
ghost use Rattle.bril_tree.specs.Sites.{AreSitesSound};
ghost use Rattle.flow_graph.specs.Graph.{IsGraphOf, IsLeastFailing};
ghost use Rattle.bril_checker.specs.Faults.{AreTyped, HasFault, HasFaultWithin, FirstFaultWithin, IsFaultOf, TakesMemory};
ghost use Rattle.bril_checker.specs.declared.fault.CheckFault.{CheckFault};
ghost use Rattle.bril_checker.specs.declared.fault.CheckFault.TheVariants.{Memory, Nest};

use crate::checked::Checked;
use crate::fault::CheckFault;
use crate::frames::frame_words;
use crate::laws::accepted_or_fault;
use crate::mistakes::{Mistake, first_misshapen, first_mistyped};
use crate::operands::parameters;
use crate::walks::{falls_off_end, first_open};
use bril_tree::numbered::VarInfo;
use bril_tree::numbered_function::Func;
use bril_tree::program::Prog;
use bril_tree::sequence::Seq;
use bril_tree::types::Ty;
use definite_assignment::first_unassigned;
use flow_graph::{Graph, GraphFault};
use std::alloc::Global;

// ---- one function

// The first fault of the function's items by themselves, if they have one.
fn check_items(prog: &Prog, number: u32, func: &Func) -> Result<(), CheckFault>
    requires { length func.now.code < 2 ^ 32 }
    ensures { MatchResult result
        (λ _. AreTyped prog.now func.now)
        (λ why. HasFaultWithin prog.now number func.now why) }
{
    if let Some(item) = first_misshapen(prog, func) {
        return Err(CheckFault::Arity { func: number, item });
    }
    match first_mistyped(prog, func) {
        None => Ok(()),
        Some(found) => Err(match found.mistake {
            Mistake::WrongType => CheckFault::Types {
                func: number,
                item: found.item,
            },
            Mistake::PrintsPointer => CheckFault::PrintPtr {
                func: number,
                item: found.item,
            },
        }),
    }
}

// The flow graph of the function, where the open sites fail at none of its points.
fn graph_of(alloc: Global, number: u32, func: &Func) -> Result<Graph, CheckFault>
    requires shaped { shape_fault_of (is_some func.now.ret) func.now.code ≡ None }
    requires few { length func.now.code < 2 ^ 32 - 1 }
    ensures found { IfOk result (λ graph. IsGraphOf func.now.code graph) }
    ensures sound { IfOk result (λ _. AreSitesSound func.now.code) }
    ensures fault { IfErr result (λ why. (why ≡ Memory)
        ⊎ ((item : ℕ) × (why ≡ Nest number item) × IsLeastFailing func.now.code item)) }
{
    match Graph::of(alloc, func) {
        Ok(graph) => Ok(graph),
        Err(GraphFault::Memory) => Err(CheckFault::Memory),
        Err(GraphFault::Nest { point }) => Err(CheckFault::Nest {
            func: number,
            item: point,
        }),
    }
}

// The words of the function's frame, where the function is accepted; else its first fault.
fn check_function(alloc: Global, prog: &Prog, number: u32, func: &Func) -> Result<u64, CheckFault>
    requires { length func.now.code < 2 ^ 32 - 1 }
    ensures accepted { IfOk result (λ _. IsAcceptedFunction prog.now func.now) }
    ensures words { IfOk result (AreFrameWords func.now) }
    ensures fault { IfErr result (λ why. (why ≡ Memory) ⊎ HasFaultWithin prog.now number func.now why) }
    ensures memory { IfErr result (λ why. why ≡ Memory → AreTyped prog.now func.now) }
{
    check_items(prog, number, func)?;
    let graph = graph_of(alloc, number, func)?;
    if let Some(item) = first_open(func, &graph) {
        return Err(CheckFault::SpecCall { func: number, item });
    }
    if falls_off_end(func, &graph) {
        return Err(CheckFault::NoReturn {
            func: number,
            item: func.code.as_slice().len() as u32,
        });
    }
    if let Some(found) = first_unassigned(alloc, func, &graph)? {
        return Err(CheckFault::MaybeUnassigned {
            func: number,
            item: found.item,
            var: found.var,
        });
    }
    Ok(frame_words(alloc, func, &graph)?)
}

// ---- the program

// Whether each variable is an int, a bool or a char.
fn are_plain(vars: &[VarInfo]) -> bool
    ensures { IsTrue result ↔ All (λ v. IsPlainType v.ty) vars.now }
{
    for v in vars {
        if !is_plain(v.ty) {
            return false;
        }
    }
    true
}

// Whether there is a type that is no pointer's.
fn is_plain(ty: Option<Ty>) -> bool
    ensures { IsTrue result ↔ IsPlainType ty }
{
    match ty {
        None => false,
        Some(ty) => ty.depth == 0,
    }
}

// Whether `main` returns nothing and takes ints, bools and chars.
fn is_main_plain(prog: &Prog) -> bool
    ensures { IsTrue result ↔ IsMainPlain prog.now }
{
    match prog.funcs.as_slice().get(prog.main as usize) {
        None => true,
        Some(main) => main.ret.is_none() && are_plain(parameters(main)),
    }
}

// The words of the frames of all functions, where these are accepted; else the first fault within them.
fn check_functions(alloc: Global, prog: &Prog) -> Result<Seq<u64>, CheckFault>
    requires main { IsMainPlain prog.now }
    requires functions { length prog.now.funcs < 2 ^ 32 }
    requires items { All (λ f. length f.code < 2 ^ 32 - 1) prog.now.funcs }
    ensures accepted { IfOk result (λ _. All (IsAcceptedFunction prog.now) prog.now.funcs) }
    ensures words { IfOk result (λ words. AllZip AreFrameWords prog.now.funcs words) }
    ensures fault { IfErr result (λ why. (why ≡ Memory) ⊎ FirstFaultWithin prog.now why) }
    ensures memory { IfErr result (λ why. why ≡ Memory → TakesMemory prog.now) }
{
    let mut words = Seq::new(alloc);
    for (number, func) in prog.funcs.as_slice().iter().enumerate() {
        words.push(check_function(alloc, prog, number as u32, func)?)?;
    }
    Ok(words)
}

// The words of the frames of all functions, where the program is accepted; else its first fault.
fn check_all(alloc: Global, prog: &Prog) -> Result<Seq<u64>, CheckFault>
    requires functions { length prog.now.funcs < 2 ^ 32 }
    requires items { All (λ f. length f.code < 2 ^ 32 - 1) prog.now.funcs }
    ensures accepted { IfOk result (λ _. IsAccepted prog.now) }
    ensures words { IfOk result (λ words. AllZip AreFrameWords prog.now.funcs words) }
    ensures fault { IfErr result (IsFaultOf prog.now) }
    ensures memory { IfErr result (λ why. why ≡ Memory → TakesMemory prog.now) }
{
    if !is_main_plain(prog) {
        return Err(CheckFault::MainType);
    }
    check_functions(alloc, prog)
}

/// The program, where it is accepted; else it is handed back with its first fault: `MainType` before all others, and
/// then the first of the first function that has one. In a function the kinds come in the order `Arity`, `Types` and
/// `PrintPtr`, `Nest`, `SpecCall`, `NoReturn` and `MaybeUnassigned`, each at its least item. `Memory` may come where
/// memory is wanting, but not in place of `MainType`, nor in place of `Arity`, `Types` or `PrintPtr` in the first
/// function: these take none.
pub fn check(alloc: Global, prog: Prog) -> Result<Checked, (Prog, CheckFault)>
    requires functions { length prog.funcs < 2 ^ 32 }
    requires items { All (λ f. length f.code < 2 ^ 32 - 1) prog.funcs }
    ensures ok { IfOk result (λ checked. checked.prog ≡ prog) }
    ensures back { IfErr result (λ refused. refused.0 ≡ prog) }

    // What is checked is accepted, and what is accepted is checked.
    ensures accepted { IfOk result (λ _. IsAccepted prog) }
    ensures accepts { IsAccepted prog → MatchResult result (λ _. ⊤) (λ refused. refused.1 ≡ Memory) }

    // A fault is the program's, and the program's fault is answered.
    ensures fault { IfErr result (λ refused. IsFaultOf prog refused.1) }
    ensures faults { (why : CheckFault) → HasFault prog why
        → MatchResult result (λ _. ⊥) (λ refused. (refused.1 ≡ why) ⊎ (refused.1 ≡ Memory)) }

    // `main` and the items of the first function are right by themselves where memory is wanting.
    ensures memory { IfErr result (λ refused. refused.1 ≡ Memory → TakesMemory prog) }
{
    accepted_or_fault();
    match check_all(alloc, &prog) {
        Ok(words) => Ok(Checked::new(prog, words)),
        Err(fault) => Err((prog, fault)),
    }
}
