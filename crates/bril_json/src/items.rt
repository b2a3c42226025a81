// Reading labels and instructions.

ghost use Rattle.std.specs.Prelude.{◌≡◌, ◌⊎◌, IfOk, IfErr, Ok, Err};
ghost use Rattle.serde_json.specs.View.{view, items_view};
ghost use Rattle.bril_json.specs.Form.{constant_of, dest_of, act_of, item_of, typed_name};
ghost use Rattle.bril_json.specs.Steps.{seen, each_from};
ghost use Rattle.bril_json.specs.declared.fault.JsonFault.TheVariants.{Memory};

use crate::fault::JsonFault;
use crate::instruction::{Instruction, instruction_of};
use crate::keys::{number_of, required};
use crate::literal::literal_of;
use crate::names::{name_at, name_of, names_at};
use crate::position::Position;
use crate::types::type_of;
use bril_tree::function_tree::{Dest, Item};
use bril_tree::operation::Op;
use bril_tree::sequence::Seq;
use serde_json::Value;
use std::alloc::Global;

// The items of a function, in order.
pub fn items_of(alloc: Global, func: u32, list: &[Value]) -> Result<Seq<Item>, JsonFault>
    ensures ok { IfOk result (λ items. each_from (item_of func) 0 (items_view list.now) ≡ Ok items) }
    ensures err { IfErr result (λ fault. (fault ≡ Memory) ⊎ (each_from (item_of func) 0 (items_view list.now) ≡ Err fault)) }
{
    let mut items = Seq::new(alloc);
    'items: for (index, value) in list.iter().enumerate() {
        items.push(item_of(alloc, func, number_of(index)?, value)?)?;
    }
    Ok(items)
}

// A label, which has no `op`, or an instruction, which has no `label`.
fn item_of(alloc: Global, func: u32, item: u32, value: &Value) -> Result<Item, JsonFault>
    ensures ok { IfOk result (λ read. item_of func item (view value.now) ≡ Ok read) }
    ensures err { IfErr result (λ fault. (fault ≡ Memory) ⊎ (item_of func item (view value.now) ≡ Err fault)) }
{
    let position = Position::item(func, item);
    match (value.get("label"), value.get("op")) {
        (Some(label), None) => Ok(Item::Label(name_of(alloc, position, label)?)),
        (None, Some(named)) => match instruction_of(position, named)? {
            Instruction::Constant => constant_of(alloc, func, item, value),
            Instruction::Operation(op) => act_of(alloc, position, op, value),
        },
        _ => Err(position.shape()),
    }
}

// A constant: its destination, its type and its value.
fn constant_of(alloc: Global, func: u32, item: u32, object: &Value) -> Result<Item, JsonFault>
    ensures ok { IfOk result (λ read. constant_of func item (view object.now) ≡ Ok read) }
    ensures err { IfErr result (λ fault. (fault ≡ Memory) ⊎ (constant_of func item (view object.now) ≡ Err fault)) }
{
    let position = Position::item(func, item);
    let dest = name_at(alloc, position, object, "dest")?;
    let ty = type_of(position, required(position, object, "type")?)?;
    let value = literal_of(func, item, required(position, object, "value")?)?;
    Ok(Item::Const { dest, ty, value })
}

// An instruction other than a constant: its destination, then the names of its arguments, functions and labels.
fn act_of(alloc: Global, position: Position, op: Op, object: &Value) -> Result<Item, JsonFault>
    ensures ok { IfOk result (λ read. act_of position op (view object.now) ≡ Ok read) }
    ensures err { IfErr result (λ fault. (fault ≡ Memory) ⊎ (act_of position op (view object.now) ≡ Err fault)) }
{
    let dest = dest_of(alloc, position, object.get("dest"), object.get("type"))?;
    let args = names_at(alloc, position, object, "args")?;
    let funcs = names_at(alloc, position, object, "funcs")?;
    let labels = names_at(alloc, position, object, "labels")?;
    Ok(Item::Act {
        dest,
        op,
        args,
        funcs,
        labels,
    })
}

// The destination of an instruction and its type, both or neither.
fn dest_of(
    alloc: Global,
    position: Position,
    named: Option<&Value>,
    typed: Option<&Value>,
) -> Result<Option<Dest>, JsonFault>
    ensures ok { IfOk result (λ dest. dest_of position (seen named.entry) (seen typed.entry) ≡ Ok dest) }
    ensures err { IfErr result (λ fault. (fault ≡ Memory)
        ⊎ (dest_of position (seen named.entry) (seen typed.entry) ≡ Err fault)) }
{
    match (named, typed) {
        (None, None) => Ok(None),
        (Some(named), Some(typed)) => Ok(Some(typed_name(alloc, position, named, typed)?)),
        _ => Err(position.shape()),
    }
}

// A name with its type.
fn typed_name(
    alloc: Global,
    position: Position,
    named: &Value,
    typed: &Value,
) -> Result<Dest, JsonFault>
    ensures ok { IfOk result (λ dest. typed_name position (view named.now) (view typed.now) ≡ Ok dest) }
    ensures err { IfErr result (λ fault. (fault ≡ Memory) ⊎ (typed_name position (view named.now) (view typed.now) ≡ Err fault)) }
{
    let name = name_of(alloc, position, named)?;
    let ty = type_of(position, typed)?;
    Ok(Dest { name, ty })
}
