// Reading functions.

ghost use Rattle.std.specs.Prelude.{◌≡◌, ◌<◌, ◌≤◌, ◌++◌, ◌∷◌, [], ℕ, List, None, Ok, IfOk, length, IsTrue};
ghost use Rattle.bril_tree.specs.declared.function_tree.Dest.{Dest};
ghost use Rattle.bril_tree.specs.declared.function_tree.FuncTree.{FuncTree};
ghost use Rattle.bril_tree.specs.declared.import.Import.{Import};
ghost use Rattle.bril_tree.specs.Identifier.{is_identifier};
ghost use Rattle.bril_grammar.specs.Machine.{run, begin, with_arg};
ghost use Rattle.bril_grammar.specs.State.{Begun, AtFunction, AfterName, AfterArgs, AtFirstArg, AtArg, AfterArg, AtItem};
ghost use Rattle.bril_grammar.specs.Terminal.{terminals_of};
ghost use Rattle.bril_text.specs.Parse.{Runs, begun_with};

use crate::items::items_at;
use crate::parse::{ParseFault, comma_or, expect, fault_at, identifier, name_of};
use crate::terminal::TerminalRef;
use crate::terminals::Terminals;
use crate::types::type_at;
use bril_grammar::fault::FaultKind;
use bril_grammar::mark::Mark;
use bril_tree::function_tree::{Dest, FuncTree};
use bril_tree::sequence::Seq;
use bril_tree::types::Ty;
use std::alloc::Global;

// The functions, up to the end.
pub fn functions_at(alloc: Global, terminals: Terminals<'_>) -> Result<Seq<FuncTree>, ParseFault>
    ensures { (imports : List Import) → Runs (run (AtFunction imports []) (terminals_of terminals.entry)) result
        (λ funcs. Ok (record { imports = imports; funcs = funcs })) }
{
    let mut funcs = Seq::new(alloc);
    let mut terminals = terminals;
    'functions: loop {
        let left = terminals.left();
        match terminals.split() {
            None => return Ok(funcs),
            Some((TerminalRef::Function(text), rest)) => {
                let (function, after) = function_at(alloc, text, rest)?;
                funcs.push(function)?;
                terminals = after;
            }
            _ => return Err(fault_at(FaultKind::Grammar, left)),
        }
    }
}

// The rest of a function, after its name.
fn function_at<'a>(
    alloc: Global,
    text: &[u8],
    terminals: Terminals<'a>,
) -> Result<(FuncTree, Terminals<'a>), ParseFault>
    requires { IsTrue (is_identifier text.now) }
    ensures runs { (imports : List Import) (funcs : List FuncTree) →
        Runs (run (AfterName (begin imports funcs text.now)) (terminals_of terminals.entry)) result
        (λ x. run (AtFunction imports (funcs ++ (x.0 ∷ []))) (terminals_of x.1)) }
    ensures shorter { IfOk result (λ x. length x.1 < length terminals.entry) }
{
    let (args, terminals) = arguments_at(alloc, terminals)?;
    let (ret, terminals) = return_at(terminals)?;
    let (code, terminals) = items_at(alloc, terminals)?;
    let name = name_of(alloc, text)?;
    Ok((
        FuncTree {
            name,
            args,
            ret,
            code,
        },
        terminals,
    ))
}

// The arguments between parentheses, if these come next.
fn arguments_at<'a>(
    alloc: Global,
    terminals: Terminals<'a>,
) -> Result<(Seq<Dest>, Terminals<'a>), ParseFault>
    ensures runs { (imports : List Import) (funcs : List FuncTree) (name : List ℕ) →
        Runs (run (AfterName (begin imports funcs name)) (terminals_of terminals.entry)) result
        (λ x. run (AfterArgs (begun_with imports funcs name x.0 None [])) (terminals_of x.1)) }
    ensures shorter { IfOk result (λ x. length x.1 ≤ length terminals.entry) }
{
    if terminals.begins_with(Mark::OpenParen) {
        argument_list(alloc, terminals.skip())
    } else {
        Ok((Seq::new(alloc), terminals))
    }
}

// The arguments after `(`, up to `)`, and the terminals after it.
fn argument_list<'a>(
    alloc: Global,
    terminals: Terminals<'a>,
) -> Result<(Seq<Dest>, Terminals<'a>), ParseFault>
    ensures runs { (imports : List Import) (funcs : List FuncTree) (name : List ℕ) →
        Runs (run (AtFirstArg (begin imports funcs name)) (terminals_of terminals.entry)) result
        (λ x. run (AfterArgs (begun_with imports funcs name x.0 None [])) (terminals_of x.1)) }
    ensures shorter { IfOk result (λ x. length x.1 ≤ length terminals.entry) }
{
    if terminals.begins_with(Mark::CloseParen) {
        Ok((Seq::new(alloc), terminals.skip()))
    } else {
        arguments(alloc, terminals)
    }
}

// One or more arguments, up to `)`, and the terminals after it.
fn arguments<'a>(
    alloc: Global,
    terminals: Terminals<'a>,
) -> Result<(Seq<Dest>, Terminals<'a>), ParseFault>
    ensures runs { (imports : List Import) (funcs : List FuncTree) (name : List ℕ) →
        Runs (run (AtArg (begin imports funcs name)) (terminals_of terminals.entry)) result
        (λ x. run (AfterArgs (begun_with imports funcs name x.0 None [])) (terminals_of x.1)) }
    ensures shorter { IfOk result (λ x. length x.1 ≤ length terminals.entry) }
{
    let mut args = Seq::new(alloc);
    let mut terminals = terminals;
    'arguments: loop {
        let (arg, rest) = argument_at(alloc, terminals)?;
        args.push(arg)?;
        let (more, rest) = comma_or(Mark::CloseParen, rest)?;
        if !more {
            return Ok((args, rest));
        }
        terminals = rest;
    }
}

// An argument.
fn argument_at<'a>(
    alloc: Global,
    terminals: Terminals<'a>,
) -> Result<(Dest, Terminals<'a>), ParseFault>
    ensures runs { (begun : Begun) → Runs (run (AtArg begun) (terminals_of terminals.entry)) result
        (λ x. run (AfterArg (with_arg begun x.0)) (terminals_of x.1)) }
    ensures shorter { IfOk result (λ x. length x.1 < length terminals.entry) }
{
    let (text, terminals) = identifier(terminals)?;
    let terminals = expect(Mark::Colon, terminals)?;
    let (ty, terminals) = type_at(terminals)?;
    let name = name_of(alloc, text)?;
    Ok((Dest { name, ty }, terminals))
}

// The return type, if there is one, up to `{`, and the terminals after it.
fn return_at(terminals: Terminals<'_>) -> Result<(Option<Ty>, Terminals<'_>), ParseFault>
    ensures runs { (imports : List Import) (funcs : List FuncTree) (name : List ℕ) (args : List Dest) →
        Runs (run (AfterArgs (begun_with imports funcs name args None [])) (terminals_of terminals.entry)) result
        (λ x. run (AtItem (begun_with imports funcs name args x.0 [])) (terminals_of x.1)) }
    ensures shorter { IfOk result (λ x. length x.1 < length terminals.entry) }
{
    if terminals.begins_with(Mark::Colon) {
        let (ty, terminals) = type_at(terminals.skip())?;
        let terminals = expect(Mark::OpenBrace, terminals)?;
        Ok((Some(ty), terminals))
    } else {
        let terminals = expect(Mark::OpenBrace, terminals)?;
        Ok((None, terminals))
    }
}
