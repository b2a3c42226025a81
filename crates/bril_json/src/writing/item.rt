// Labels and instructions as JSON values.

ghost use Rattle.std.specs.Prelude.{◌≡◌, IfOk, OnOk, IfSome, option_map};
ghost use Rattle.bril_tree.specs.TreeForm.{IsName, AreNames, IsDest, IsLiteral, IsItem};
ghost use Rattle.bril_tree.specs.declared.function_tree.Dest.{Dest};
ghost use Rattle.serde_json.specs.Data.{string};
ghost use Rattle.serde_json.specs.View.{view};
ghost use Rattle.bril_json.specs.Canonical.{type_json, literal_json, item_json};

use crate::writing::part::{ListItem, name_text, names_part, put_part};
use bril_tree::function_tree::{Dest, Item};
use bril_tree::name::Name;
use bril_tree::operation::Op;
use bril_tree::sequence::Seq;
use bril_tree::types::Ty;
use bril_tree::value::Lit;
use serde_json::{Map, Value, json, put};
use std::alloc::{AllocError, Global};

// The type: its base inside as many objects with the key `ptr` as the type is deep.
pub fn type_value(alloc: Global, ty: &Ty) -> Result<Value, AllocError>
    ensures { IfOk result (λ v. view v ≡ type_json ty.now) }
{
    let mut value = Value::try_from_str(alloc, ty.base.name())?;
    for _depth in 0..ty.depth {
        value = json!(in alloc; {"ptr": value})?;
    }
    Ok(value)
}

// The type, if there is one.
pub fn type_part(alloc: Global, ty: &Option<Ty>) -> Result<Option<Value>, AllocError>
    ensures { IfOk result (λ part. option_map view part ≡ option_map type_json ty.now) }
{
    match ty {
        None => Ok(None),
        Some(ty) => Ok(Some(type_value(alloc, ty)?)),
    }
}

// The name of the destination, if there is one.
fn dest_part(alloc: Global, dest: &Option<Dest>) -> Result<Option<Value>, AllocError>
    ensures part { IfOk result (λ part. option_map view part
        ≡ option_map (λ (d : Dest). string d.name) dest.now) }
    ensures valid { OnOk result (IfSome dest.now IsDest) }
{
    match dest {
        None => Ok(None),
        Some(dest) => Ok(Some(dest.name.value(alloc)?)),
    }
}

// The type of the destination, if there is one.
fn dest_type_part(alloc: Global, dest: &Option<Dest>) -> Result<Option<Value>, AllocError>
    ensures { IfOk result (λ part. option_map view part
        ≡ option_map (λ (d : Dest). type_json d.ty) dest.now) }
{
    match dest {
        None => Ok(None),
        Some(dest) => Ok(Some(type_value(alloc, &dest.ty)?)),
    }
}

// The literal: a number, a boolean, or a text of one character.
fn literal_value(alloc: Global, literal: &Lit) -> Result<Value, AllocError>
    ensures value { IfOk result (λ v. view v ≡ literal_json literal.now) }
    ensures valid { OnOk result (IsLiteral literal.now) }
{
    match *literal {
        Lit::Int(n) => Ok(Value::from(n)),
        Lit::Bool(b) => Ok(Value::from(b)),
        Lit::Char(c) => Value::try_from_str(alloc, c.encode_utf8(&mut [0; 4])),
    }
}

// A label.
fn label_value(alloc: Global, name: &Name) -> Result<Value, AllocError>
    ensures value { IfOk result (λ v. view v ≡ item_json (Item.Label name.now)) }
    ensures valid { OnOk result (IsName name.now) }
{
    json!(in alloc; {"label": name_text(name)})
}

// A constant.
fn const_value(alloc: Global, dest: &Name, ty: &Ty, value: &Lit) -> Result<Value, AllocError>
    ensures value { IfOk result (λ v. view v ≡ item_json (Item.Const dest.now ty.now value.now)) }
    ensures valid { OnOk result (IsItem (Item.Const dest.now ty.now value.now)) }
{
    let ty = type_value(alloc, ty)?;
    let value = literal_value(alloc, value)?;
    json!(in alloc; {"dest": name_text(dest), "op": "const", "type": ty, "value": value})
}

// An instruction other than `const`. Its members are added in the order of their keys.
fn act_value(
    alloc: Global,
    dest: &Option<Dest>,
    op: Op,
    args: &Seq<Name>,
    funcs: &Seq<Name>,
    labels: &Seq<Name>,
) -> Result<Value, AllocError>
    ensures value { IfOk result (λ v. view v ≡ item_json (Item.Act dest.now op args.now funcs.now labels.now)) }
    ensures valid { OnOk result (IsItem (Item.Act dest.now op args.now funcs.now labels.now)) }
{
    let operation = Value::try_from_str(alloc, op.name())?;
    let mut members = Map::new(alloc);
    put_part(&mut members, alloc, "args", names_part(alloc, args)?)?;
    put_part(&mut members, alloc, "dest", dest_part(alloc, dest)?)?;
    put_part(&mut members, alloc, "funcs", names_part(alloc, funcs)?)?;
    put_part(&mut members, alloc, "labels", names_part(alloc, labels)?)?;
    put(&mut members, alloc, "op", operation)?;
    put_part(&mut members, alloc, "type", dest_type_part(alloc, dest)?)?;
    Ok(Value::Object(members))
}

impl ListItem for Item {
    ghost json = { item_json };

    ghost is_part = { IsItem };

    // A label or an instruction.
    fn value(&self, alloc: Global) -> Result<Value, AllocError> {
        match self {
            Item::Label(name) => label_value(alloc, name),
            Item::Const { dest, ty, value } => const_value(alloc, dest, ty, value),
            Item::Act {
                dest,
                op,
                args,
                funcs,
                labels,
            } => act_value(alloc, dest, *op, args, funcs, labels),
        }
    }
}
