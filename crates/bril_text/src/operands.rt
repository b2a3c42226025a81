// Reading the operands of an instruction.

ghost use Rattle.std.specs.Prelude.{◌≡◌, ◌<◌, IfOk, length, Option, Some, None};
ghost use Rattle.bril_tree.specs.declared.function_tree.Dest.{Dest};
ghost use Rattle.bril_tree.specs.declared.operation.Op.{Op};
ghost use Rattle.bril_grammar.specs.Machine.{run, act, acted};
ghost use Rattle.bril_grammar.specs.State.{Begun, AtOperand};
ghost use Rattle.bril_grammar.specs.Terminal.{terminals_of};
ghost use Rattle.bril_text.specs.Parse.{Runs, with_operands};

use crate::parse::{ParseFault, fault_at, name_of};
use crate::terminal::TerminalRef;
use crate::terminals::Terminals;
use bril_grammar::fault::FaultKind;
use bril_grammar::mark::Mark;
use bril_tree::name::Name;
use bril_tree::sequence::Seq;
use std::alloc::Global;

// The operands of an instruction by kind, each kind in order.
#[derive(Drop)]
pub struct Operands {
    pub args: Seq<Name>,
    pub funcs: Seq<Name>,
    pub labels: Seq<Name>,
}

// The operands that come next, up to `;`, and the terminals after it.
pub fn operands_at<'a>(
    alloc: Global,
    terminals: Terminals<'a>,
) -> Result<(Operands, Terminals<'a>), ParseFault>
    ensures runs { (begun : Begun) (dest : Option Dest) (operation : Op) →
        Runs (run (AtOperand (act begun dest operation)) (terminals_of terminals.entry)) result
        (λ x. run (acted (with_operands begun dest operation x.0)) (terminals_of x.1)) }
    ensures shorter { IfOk result (λ x. length x.1 < length terminals.entry) }
{
    let mut operands = Operands {
        args: Seq::new(alloc),
        funcs: Seq::new(alloc),
        labels: Seq::new(alloc),
    };
    let mut terminals = terminals;
    'operands: loop {
        let left = terminals.left();
        match terminals.split() {
            Some((TerminalRef::Name(text), rest)) => {
                operands.args.push(name_of(alloc, text)?)?;
                terminals = rest;
            }
            Some((TerminalRef::Function(text), rest)) => {
                operands.funcs.push(name_of(alloc, text)?)?;
                terminals = rest;
            }
            Some((TerminalRef::Label(text), rest)) => {
                operands.labels.push(name_of(alloc, text)?)?;
                terminals = rest;
            }
            Some((TerminalRef::Mark(Mark::Semicolon), rest)) => return Ok((operands, rest)),
            _ => return Err(fault_at(FaultKind::Grammar, left)),
        }
    }
}
