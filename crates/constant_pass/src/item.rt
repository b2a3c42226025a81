// What becomes of an item.

ghost use Rattle.std.specs.Prelude.{◌≡◌, ◌<◌, ℕ, List, All, IfOk, None, Some, length};
ghost use Rattle.bril_tree.specs.Numbered.{item_tree, variable_names};
ghost use Rattle.flow_graph.specs.Branches.{HasLabels};
ghost use Rattle.constant_pass.specs.constants.Kept.{told};
ghost use Rattle.constant_pass.specs.Edit.{IsMade, constant_of, constant_tree, nop_tree};
ghost use Rattle.bril_tree.specs.declared.numbered.Instr.{Instr};
ghost use Rattle.constant_pass.specs.Items.{condition, folded_item, jump_or, jump_to, literal_of};

use crate::constants::{ConstTable, Known};
use bril_tree::function_tree::Item;
use bril_tree::numbered::Instr;
use bril_tree::numbered_function::Func;
use bril_tree::operation::Op;
use bril_tree::sequence::Seq;
use bril_tree::value::{Lit, Value};
use bril_values::bool_of;
use pass_make::nop;
use std::alloc::{AllocError, Global};

// The literal of the one value that is known.
fn literal_of(known: Known) -> Option<Lit>
    ensures { result ≡ literal_of known }
{
    match known {
        Known::One(Value::Int(n)) => Some(Lit::Int(n)),
        Known::One(Value::Bool(b)) => Some(Lit::Bool(b)),
        Known::One(Value::Char(c)) => Some(Lit::Char(c)),
        _ => None,
    }
}

// The condition, where it is known.
fn condition(known: Known) -> Option<bool>
    ensures { result ≡ condition known }
{
    match known {
        Known::One(value) => Some(bool_of(value)),
        _ => None,
    }
}

// A `const` of the value for an item with a destination.
fn constant_of(value: Lit, item: Item) -> Item
    ensures { result ≡ constant_of value item }
{
    match item {
        Item::Act {
            dest,
            op,
            args,
            funcs,
            labels,
        } => match dest {
            Some(dest) => Item::Const {
                dest: dest.name,
                ty: dest.ty,
                value,
            },
            None => Item::Act {
                dest: None,
                op,
                args,
                funcs,
                labels,
            },
        },
        _ => item,
    }
}

// A `const` of the literal, where there is one.
fn constant_or(literal: Option<Lit>, item: Item) -> Item
    ensures { result ≡ constant_tree literal item }
{
    match literal {
        None => item,
        Some(value) => constant_of(value, item),
    }
}

// `nop` where the condition is known to hold.
fn nop_or(alloc: Global, condition: Option<bool>, item: Item) -> Item
    ensures { result ≡ nop_tree condition item }
{
    match condition {
        Some(true) => nop(alloc),
        _ => item,
    }
}

// A `jmp` to a label of the function.
fn jump(alloc: Global, func: &Func, label: u32) -> Result<Item, AllocError>
    requires { label < length func.now.labels }
    ensures { IfOk result (λ made. (fs : List (List ℕ)) → made ≡ item_tree fs (variable_names func.now.vars) func.now.labels (jump_to label)) }
{
    let mut labels = Seq::new(alloc);
    labels.push(func.labels.as_slice()[label as usize].copied(alloc)?)?;
    Ok(Item::Act {
        dest: None,
        op: Op::Jmp,
        args: Seq::new(alloc),
        funcs: Seq::new(alloc),
        labels,
    })
}

// A `jmp` in place of a branch whose condition is known.
fn jump_or(
    alloc: Global,
    func: &Func,
    labels: &[u32],
    condition: Option<bool>,
    item: Item,
) -> Result<Item, AllocError>
    requires two { length labels.now ≡ 2 }
    requires within { All (λ l. l < length func.now.labels) labels.now }
    ensures { IfOk result (λ made. (fs : List (List ℕ)) (instr : Instr) → item ≡ item_tree fs (variable_names func.now.vars) func.now.labels instr → made ≡ item_tree fs (variable_names func.now.vars) func.now.labels (jump_or condition labels.now instr)) }
{
    match condition {
        None => Ok(item),
        Some(true) => {
            let made = jump(alloc, func, labels[0])?;
            Ok(made)
        }
        Some(false) => {
            let made = jump(alloc, func, labels[1])?;
            Ok(made)
        }
    }
}

// What becomes of a reached item.
fn folded_item(
    alloc: Global,
    func: &Func,
    table: &ConstTable,
    instr: &Instr,
    item: Item,
) -> Result<Item, AllocError>
    requires labelled { HasLabels (length func.now.labels) instr.now }
    ensures { IfOk result (λ made. (fs : List (List ℕ)) → item ≡ item_tree fs (variable_names func.now.vars) func.now.labels instr.now → made ≡ item_tree fs (variable_names func.now.vars) func.now.labels (folded_item (told table.now).known instr.now)) }
{
    let Instr::Act { op, labels, .. } = instr else {
        return Ok(item);
    };
    match op {
        Op::Br => {
            let known = condition(table.condition(instr));
            let made = jump_or(alloc, func, labels.as_slice(), known, item)?;
            Ok(made)
        }
        Op::Guard => {
            let known = condition(table.condition(instr));
            Ok(nop_or(alloc, known, item))
        }
        _ => Ok(constant_or(literal_of(table.answer(instr)), item)),
    }
}

// What becomes of the item at a point.
pub(crate) fn made_item(
    alloc: Global,
    func: &Func,
    table: &ConstTable,
    point: u32,
    item: Item,
) -> Result<Item, AllocError>
    requires labelled { All (HasLabels (length func.now.labels)) func.now.code }
    ensures { IfOk result (λ made. IsMade func.now (told table.now) point item made) }
{
    if !table.reached(point) {
        return Ok(item);
    }
    match func.code.as_slice().get(point as usize) {
        None => Ok(item),
        Some(instr) => {
            let made = folded_item(alloc, func, table, instr, item)?;
            Ok(made)
        }
    }
}
