// Reading a literal.

ghost use Rattle.std.specs.Prelude.{◌≡◌, ◌<◌, IfOk, length};
ghost use Rattle.bril_tree.specs.declared.function_tree.Dest.{Dest};
ghost use Rattle.bril_grammar.specs.Machine.{run, const_of};
ghost use Rattle.bril_grammar.specs.State.{Begun, AtLiteral};
ghost use Rattle.bril_grammar.specs.Terminal.{terminals_of};
ghost use Rattle.bril_text.specs.Parse.{Runs};

use crate::keyword::keyword;
use crate::parse::{ParseFault, fault_at};
use crate::terminal::TerminalRef;
use crate::terminals::Terminals;
use bril_grammar::fault::FaultKind;
use bril_grammar::keyword::Keyword;
use bril_tree::value::Lit;

// The literal that comes next.
pub fn literal_at(terminals: Terminals<'_>) -> Result<(Lit, Terminals<'_>), ParseFault>
    ensures runs { (begun : Begun) (dest : Dest) → Runs (run (AtLiteral begun dest) (terminals_of terminals.entry)) result
        (λ x. run (const_of begun dest x.0) (terminals_of x.1)) }
    ensures shorter { IfOk result (λ x. length x.1 < length terminals.entry) }
{
    let left = terminals.left();
    match terminals.split() {
        Some((TerminalRef::Name(text), rest)) => match keyword(text) {
            Keyword::Truth(value) => Ok((Lit::Bool(value), rest)),
            _ => Err(fault_at(FaultKind::Grammar, left)),
        },
        Some((TerminalRef::Number(Some(value)), rest)) => Ok((Lit::Int(value), rest)),
        Some((TerminalRef::Number(None), _)) => Err(fault_at(FaultKind::IntRange, left)),
        Some((TerminalRef::Float, _)) => Err(fault_at(FaultKind::Float, left)),
        Some((TerminalRef::Char(value), rest)) => Ok((Lit::Char(value), rest)),
        _ => Err(fault_at(FaultKind::Grammar, left)),
    }
}
