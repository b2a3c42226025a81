// What the functions of the parser return, and those that several of them use.

ghost use Rattle.std.specs.Prelude.{◌≡◌, IfOk, IfErr, IsTrue, length, ◌<◌};
ghost use Rattle.bril_tree.specs.Identifier.{is_identifier};
ghost use Rattle.bril_grammar.specs.Machine.{run, marks_alone, transition, arg_named};
ghost use Rattle.bril_grammar.specs.State.{State, Begun, Importing, Expect, AtArg, AtTaken, AfterTaken, AtAlias, AfterAlias};
ghost use Rattle.bril_grammar.specs.declared.mark.Mark.TheVariants.{Comma};
ghost use Rattle.std.specs.Prelude.{ℕ, List, [], ◌∷◌, Some, if◌then◌else◌};
ghost use Rattle.bril_grammar.specs.Terminal.{terminals_of};
ghost use Rattle.bril_text.specs.declared.parse.ParseFault.TheVariants.{Memory};
ghost use Rattle.bril_text.specs.Parse.{Runs, StopsAtTerminal, go};

use crate::terminal::TerminalRef;
use crate::terminals::Terminals;
use bril_grammar::fault::{Fault, FaultKind};
use bril_grammar::mark::Mark;
use bril_tree::name::Name;
use std::alloc::{AllocError, Global};

// Why the parser stopped: at a token that doesn't fit, or out of memory.
#[derive(Clone, Copy, PartialEq, Eq, Debug, Drop)]
pub enum ParseFault {
    At(Fault),
    Memory,
}

impl From<AllocError> for ParseFault {
    ghost from_gives = { λ _ e. e ≡ Memory };

    fn from(_fault: AllocError) -> ParseFault {
        ParseFault::Memory
    }
}

// The fault of a kind where this many tokens are left.
pub fn fault_at(kind: FaultKind, left: usize) -> ParseFault
    ensures { StopsAtTerminal result kind left }
{
    ParseFault::At(Fault { kind, left })
}

// The identifier as a name.
pub fn name_of(alloc: Global, text: &[u8]) -> Result<Name, ParseFault>
    requires { IsTrue (is_identifier text.now) }
    ensures ok { IfOk result (λ name. name ≡ text.now) }
    ensures err { IfErr result (λ fault. fault ≡ Memory) }
{
    Ok(Name::of_identifier(alloc, text)?)
}

// The terminals after this mark, which must come next.
pub fn expect<'a>(mark: Mark, terminals: Terminals<'a>) -> Result<Terminals<'a>, ParseFault>
    ensures runs { (next : State) → Runs (run (Expect mark next) (terminals_of terminals.entry)) result (λ rest. run next (terminals_of rest)) }
    ensures shorter { IfOk result (λ rest. length rest < length terminals.entry) }
{
    let left = terminals.left();
    match terminals.split() {
        Some((TerminalRef::Mark(found), rest)) if found == mark => Ok(rest),
        _ => Err(fault_at(FaultKind::Grammar, left)),
    }
}

// Whether a comma comes next, where otherwise this mark must, and the terminals after either.
pub fn comma_or<'a>(
    mark: Mark,
    terminals: Terminals<'a>,
) -> Result<(bool, Terminals<'a>), ParseFault>
    ensures runs { (again end : State) → Runs (go (marks_alone (transition Comma again ∷ transition mark end ∷ [])) (terminals_of terminals.entry)) result
        (λ x. run (if x.0 then again else end) (terminals_of x.1)) }
    ensures shorter { IfOk result (λ x. length x.1 < length terminals.entry) }
{
    if terminals.begins_with(Mark::Comma) {
        let rest = expect(Mark::Comma, terminals)?;
        Ok((true, rest))
    } else {
        let rest = expect(mark, terminals)?;
        Ok((false, rest))
    }
}

// The identifier that comes next.
pub fn identifier(terminals: Terminals<'_>) -> Result<(&[u8], Terminals<'_>), ParseFault>
    ensures runs { (begun : Begun) → Runs (run (AtArg begun) (terminals_of terminals.entry)) result
        (λ x. run (arg_named begun x.0.now) (terminals_of x.1)) }
    ensures identifier { IfOk result (λ x. IsTrue (is_identifier x.0.now)) }
    ensures shorter { IfOk result (λ x. length x.1 < length terminals.entry) }
{
    let left = terminals.left();
    match terminals.split() {
        Some((TerminalRef::Name(text), rest)) => Ok((text, rest)),
        _ => Err(fault_at(FaultKind::Grammar, left)),
    }
}

// The name of a function that comes next.
pub fn function_name(terminals: Terminals<'_>) -> Result<(&[u8], Terminals<'_>), ParseFault>
    ensures taken { (i : Importing) → Runs (run (AtTaken i) (terminals_of terminals.entry)) result
        (λ x. run (AfterTaken i x.0.now) (terminals_of x.1)) }
    ensures alias { (i : Importing) (name : List ℕ) → Runs (run (AtAlias i name) (terminals_of terminals.entry)) result
        (λ x. run (AfterAlias i (record { name = name; alias = Some x.0.now })) (terminals_of x.1)) }
    ensures identifier { IfOk result (λ x. IsTrue (is_identifier x.0.now)) }
    ensures shorter { IfOk result (λ x. length x.1 < length terminals.entry) }
{
    let left = terminals.left();
    match terminals.split() {
        Some((TerminalRef::Function(text), rest)) => Ok((text, rest)),
        _ => Err(fault_at(FaultKind::Grammar, left)),
    }
}
