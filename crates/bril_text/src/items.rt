// Reading the items of a function.

ghost use Rattle.std.specs.Prelude.{◌≡◌, ◌<◌, ◌∷◌, [], List, Option, IfOk, length};
ghost use Rattle.bril_tree.specs.declared.function_tree.Dest.{Dest};
ghost use Rattle.bril_tree.specs.declared.function_tree.FuncTree.{FuncTree};
ghost use Rattle.bril_tree.specs.declared.import.Import.{Import};
ghost use Rattle.bril_tree.specs.declared.types.Ty.{Ty};
ghost use Rattle.bril_tree.specs.Identifier.{is_identifier};
ghost use Rattle.bril_grammar.specs.Machine.{run, with_item, dest_type, finished, act};
ghost use Rattle.bril_grammar.specs.State.{AtItem, AtOperation, AtLiteral, AtOperand, Expect};
ghost use Rattle.bril_grammar.specs.Terminal.{terminals_of, Name};
ghost use Rattle.bril_grammar.specs.declared.mark.Mark.TheVariants.{Colon};
ghost use Rattle.std.specs.Prelude.{IsTrue, ℕ};
ghost use Rattle.bril_text.specs.Parse.{Runs, ReadsItem, begun_with};

use crate::keyword::keyword;
use crate::literal::literal_at;
use crate::operands::operands_at;
use crate::parse::{ParseFault, expect, fault_at, name_of};
use crate::terminal::TerminalRef;
use crate::terminals::Terminals;
use crate::types::type_at;
use bril_grammar::fault::FaultKind;
use bril_grammar::keyword::Keyword;
use bril_grammar::mark::Mark;
use bril_tree::function_tree::{Dest, Item};
use bril_tree::operation::Op;
use bril_tree::sequence::Seq;
use std::alloc::Global;

// The items that come next, up to `}`, and the terminals after it.
pub fn items_at<'a>(
    alloc: Global,
    terminals: Terminals<'a>,
) -> Result<(Seq<Item>, Terminals<'a>), ParseFault>
    ensures runs { (imports : List Import) (funcs : List FuncTree) (name : List ℕ) (args : List Dest) (ret : Option Ty) →
        Runs (run (AtItem (begun_with imports funcs name args ret [])) (terminals_of terminals.entry)) result
        (λ x. run (finished (begun_with imports funcs name args ret x.0)) (terminals_of x.1)) }
    ensures shorter { IfOk result (λ x. length x.1 < length terminals.entry) }
{
    let mut code = Seq::new(alloc);
    let mut terminals = terminals;
    'items: loop {
        let left = terminals.left();
        match terminals.split() {
            Some((TerminalRef::Label(text), rest)) => {
                let (item, after) = label_at(alloc, text, rest)?;
                code.push(item)?;
                terminals = after;
            }
            Some((TerminalRef::Name(text), rest)) => {
                let (item, after) = instruction_at(alloc, text, rest)?;
                code.push(item)?;
                terminals = after;
            }
            Some((TerminalRef::Mark(Mark::CloseBrace), rest)) => return Ok((code, rest)),
            _ => return Err(fault_at(FaultKind::Grammar, left)),
        }
    }
}

// The rest of a label, after its name.
fn label_at<'a>(
    alloc: Global,
    text: &[u8],
    terminals: Terminals<'a>,
) -> Result<(Item, Terminals<'a>), ParseFault>
    requires { IsTrue (is_identifier text.now) }
    ensures runs { ReadsItem (λ begun. Expect Colon (AtItem (with_item begun (Item.Label text.now)))) (terminals_of terminals.entry) result }
    ensures shorter { IfOk result (λ x. length x.1 < length terminals.entry) }
{
    let terminals = expect(Mark::Colon, terminals)?;
    Ok((Item::Label(name_of(alloc, text)?), terminals))
}

// The rest of an instruction, after the identifier with which it begins.
fn instruction_at<'a>(
    alloc: Global,
    text: &[u8],
    terminals: Terminals<'a>,
) -> Result<(Item, Terminals<'a>), ParseFault>
    requires { IsTrue (is_identifier text.now) }
    ensures runs { ReadsItem AtItem (Name text.now ∷ terminals_of terminals.entry) result }
    ensures shorter { IfOk result (λ x. length x.1 < length terminals.entry) }
{
    if terminals.begins_with(Mark::Colon) {
        return assignment_at(alloc, text, terminals);
    }
    match keyword(text) {
        Keyword::Operation(op) => act_at(alloc, None, op, terminals),
        Keyword::FloatOperation => Err(fault_at(FaultKind::Float, terminals.left() + 1)),
        _ => Err(fault_at(FaultKind::Grammar, terminals.left())),
    }
}

// The rest of an instruction with a destination, after the destination's name.
fn assignment_at<'a>(
    alloc: Global,
    text: &[u8],
    terminals: Terminals<'a>,
) -> Result<(Item, Terminals<'a>), ParseFault>
    requires { IsTrue (is_identifier text.now) }
    ensures runs { ReadsItem (λ begun. Expect Colon (dest_type begun text.now)) (terminals_of terminals.entry) result }
    ensures shorter { IfOk result (λ x. length x.1 < length terminals.entry) }
{
    let terminals = expect(Mark::Colon, terminals)?;
    let (ty, terminals) = type_at(terminals)?;
    let terminals = expect(Mark::Equals, terminals)?;
    let name = name_of(alloc, text)?;
    operation_at(alloc, Dest { name, ty }, terminals)
}

// The right side of an assignment, from its operation on.
fn operation_at<'a>(
    alloc: Global,
    dest: Dest,
    terminals: Terminals<'a>,
) -> Result<(Item, Terminals<'a>), ParseFault>
    ensures runs { ReadsItem (λ begun. AtOperation begun dest) (terminals_of terminals.entry) result }
    ensures shorter { IfOk result (λ x. length x.1 < length terminals.entry) }
{
    let left = terminals.left();
    let Some((TerminalRef::Name(text), rest)) = terminals.split() else {
        return Err(fault_at(FaultKind::Grammar, left));
    };
    match keyword(text) {
        Keyword::Const => constant_at(dest, rest),
        Keyword::Operation(op) => act_at(alloc, Some(dest), op, rest),
        Keyword::FloatOperation if !rest.begins_with(Mark::Colon) => {
            Err(fault_at(FaultKind::Float, left))
        }
        _ => Err(fault_at(FaultKind::Grammar, left)),
    }
}

// The rest of a constant, after `const`.
fn constant_at(dest: Dest, terminals: Terminals<'_>) -> Result<(Item, Terminals<'_>), ParseFault>
    ensures runs { ReadsItem (λ begun. AtLiteral begun dest) (terminals_of terminals.entry) result }
    ensures shorter { IfOk result (λ x. length x.1 < length terminals.entry) }
{
    let (value, terminals) = literal_at(terminals)?;
    let terminals = expect(Mark::Semicolon, terminals)?;
    let Dest { name, ty } = dest;
    Ok((
        Item::Const {
            dest: name,
            ty,
            value,
        },
        terminals,
    ))
}

// The rest of an instruction other than a constant, after its operation.
fn act_at<'a>(
    alloc: Global,
    dest: Option<Dest>,
    op: Op,
    terminals: Terminals<'a>,
) -> Result<(Item, Terminals<'a>), ParseFault>
    ensures runs { ReadsItem (λ begun. AtOperand (act begun dest op)) (terminals_of terminals.entry) result }
    ensures shorter { IfOk result (λ x. length x.1 < length terminals.entry) }
{
    let (operands, terminals) = operands_at(alloc, terminals)?;
    Ok((
        Item::Act {
            dest,
            op,
            args: operands.args,
            funcs: operands.funcs,
            labels: operands.labels,
        },
        terminals,
    ))
}
