// Reading names.

ghost use Rattle.std.specs.Prelude.{◌≡◌, ◌⊎◌, IfOk, IfErr, Ok, Err, Some};
ghost use Rattle.serde_json.specs.View.{view, items_view};
ghost use Rattle.bril_json.specs.Form.{name_text, name_of, name_at, names_at};
ghost use Rattle.bril_json.specs.Steps.{each};
ghost use Rattle.bril_json.specs.declared.fault.JsonFault.TheVariants.{Memory};

use crate::fault::JsonFault;
use crate::keys::{list_or_none, required};
use crate::position::Position;
use bril_tree::name::{IdentFault, Name};
use bril_tree::sequence::Seq;
use serde_json::Value;
use std::alloc::Global;

// A name: a text that is an identifier.
pub fn name_of(alloc: Global, position: Position, value: &Value) -> Result<Name, JsonFault>
    ensures ok { IfOk result (λ name. name_of position (view value.now) ≡ Ok name) }
    ensures err { IfErr result (λ fault. (fault ≡ Memory) ⊎ (name_of position (view value.now) ≡ Err fault)) }
{
    match value.as_str() {
        Some(text) => name_text(alloc, position, text),
        None => Err(position.shape()),
    }
}

// The name that a text is.
fn name_text(alloc: Global, position: Position, text: &str) -> Result<Name, JsonFault>
    ensures ok { IfOk result (λ name. name_text position (Some text.now) ≡ Ok name) }
    ensures err { IfErr result (λ fault. (fault ≡ Memory) ⊎ (name_text position (Some text.now) ≡ Err fault)) }
{
    match Name::ident(alloc, text.as_bytes()) {
        Ok(name) => Ok(name),
        Err(IdentFault::NotIdent) => Err(position.shape()),
        Err(IdentFault::Memory) => Err(JsonFault::Memory),
    }
}

// The name at a key that must be there.
pub fn name_at(
    alloc: Global,
    position: Position,
    object: &Value,
    key: &str,
) -> Result<Name, JsonFault>
    ensures ok { IfOk result (λ name. name_at position key.now (view object.now) ≡ Ok name) }
    ensures err { IfErr result (λ fault. (fault ≡ Memory) ⊎ (name_at position key.now (view object.now) ≡ Err fault)) }
{
    name_of(alloc, position, required(position, object, key)?)
}

// The names of the list at a key, none where the key is missing.
pub fn names_at(
    alloc: Global,
    position: Position,
    object: &Value,
    key: &str,
) -> Result<Seq<Name>, JsonFault>
    ensures ok { IfOk result (λ names. names_at position key.now (view object.now) ≡ Ok names) }
    ensures err { IfErr result (λ fault. (fault ≡ Memory) ⊎ (names_at position key.now (view object.now) ≡ Err fault)) }
{
    names_of(alloc, position, list_or_none(position, object.get(key))?)
}

// The name that each value of a list is.
fn names_of(alloc: Global, position: Position, list: &[Value]) -> Result<Seq<Name>, JsonFault>
    ensures ok { IfOk result (λ names. each (name_of position) (items_view list.now) ≡ Ok names) }
    ensures err { IfErr result (λ fault. (fault ≡ Memory) ⊎ (each (name_of position) (items_view list.now) ≡ Err fault)) }
{
    let mut names = Seq::new(alloc);
    'names: for value in list {
        names.push(name_of(alloc, position, value)?)?;
    }
    Ok(names)
}
