// Reading a type.

ghost use Rattle.std.specs.Prelude.{◌≡◌, ◌<◌, ◌≤◌, IfOk, length};
ghost use Rattle.bril_grammar.specs.Machine.{run, typed, closing};
ghost use Rattle.bril_grammar.specs.State.{State, TypePosition, AtType};
ghost use Rattle.bril_grammar.specs.Terminal.{terminals_of};
ghost use Rattle.bril_text.specs.Parse.{Runs};

use crate::keyword::keyword;
use crate::parse::{ParseFault, expect, fault_at};
use crate::terminal::TerminalRef;
use crate::terminals::Terminals;
use bril_grammar::fault::FaultKind;
use bril_grammar::keyword::Keyword;
use bril_grammar::mark::Mark;
use bril_tree::types::Ty;

// The type that comes next.
pub fn type_at(terminals: Terminals<'_>) -> Result<(Ty, Terminals<'_>), ParseFault>
    ensures runs { (position : TypePosition) → Runs (run (AtType position 0) (terminals_of terminals.entry)) result
        (λ x. run (typed position x.0) (terminals_of x.1)) }
    ensures shorter { IfOk result (λ x. length x.1 < length terminals.entry) }
{
    let (ty, terminals) = opened(terminals)?;
    let terminals = closed(ty.depth, terminals)?;
    Ok((ty, terminals))
}

// The type up to its base.
fn opened(terminals: Terminals<'_>) -> Result<(Ty, Terminals<'_>), ParseFault>
    ensures runs { (position : TypePosition) → Runs (run (AtType position 0) (terminals_of terminals.entry)) result
        (λ x. run (closing x.0.depth (typed position x.0)) (terminals_of x.1)) }
    ensures shorter { IfOk result (λ x. length x.1 < length terminals.entry) }
{
    let mut terminals = terminals;
    let mut depth = 0;
    'pointers: loop {
        let left = terminals.left();
        let Some((TerminalRef::Name(text), rest)) = terminals.split() else {
            return Err(fault_at(FaultKind::Grammar, left));
        };
        match keyword(text) {
            Keyword::BaseType(base) => return Ok((Ty { depth, base }, rest)),
            Keyword::Ptr if depth < 32 => {
                terminals = expect(Mark::Less, rest)?;
                depth += 1;
            }
            Keyword::Ptr => return Err(fault_at(FaultKind::Deep, left)),
            Keyword::FloatType => return Err(fault_at(FaultKind::Float, left)),
            _ => return Err(fault_at(FaultKind::Grammar, left)),
        }
    }
}

// The terminals after this many `>`.
fn closed(depth: u8, terminals: Terminals<'_>) -> Result<Terminals<'_>, ParseFault>
    ensures runs { (next : State) → Runs (run (closing depth next) (terminals_of terminals.entry)) result
        (λ rest. run next (terminals_of rest)) }
    ensures shorter { IfOk result (λ rest. length rest ≤ length terminals.entry) }
{
    let mut terminals = terminals;
    for _ in 0..depth {
        terminals = expect(Mark::Greater, terminals)?;
    }
    Ok(terminals)
}
