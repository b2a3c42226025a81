// Lists of values, names, and parts of objects that may be left out.

ghost use Rattle.std.specs.Prelude.{◌≡◌, IfOk, OnOk, All, option_map};
ghost use Rattle.bril_tree.specs.TreeForm.{IsName, AreNames};
ghost use Rattle.serde_json.specs.Data.{Data, string};
ghost use Rattle.serde_json.specs.View.{view, items_view, members_view};
ghost use Rattle.bril_json.specs.Built as built;
ghost use Rattle.bril_json.specs.Canonical.{listed, unless_empty};

use bril_tree::name::Name;
use bril_tree::sequence::Seq;
use serde_json::{Map, Value, put};
use std::alloc::{AllocError, Global};
use std::str;

// A part of a tree that is an item of a list in the JSON form.
pub trait ListItem {
    // Its canonical JSON, and what it means to be a valid part of a tree.
    ghost json: { Self → Data };

    ghost is_part: { Self → Type 0 };

    // Its canonical JSON.
    fn value(&self, alloc: Global) -> Result<Value, AllocError>
        ensures value { IfOk result (λ v. view v ≡ json self.now) }
        ensures valid { OnOk result (is_part self.now) };
}

// The values of the items, in order.
pub fn list_values<T: ListItem>(alloc: Global, list: &[T]) -> Result<Vec<Value>, AllocError>
    ensures values { IfOk result (λ vs. items_view vs.items ≡ listed T.json list.now) }
    ensures valid { OnOk result (All T.is_part list.now) }
{
    let mut values = Vec::new(alloc);
    for item in list {
        values.push(item.value(alloc)?)?;
    }
    Ok(values)
}

// The name as text.
pub fn name_text(name: &Name) -> &str
    ensures value { result.now ≡ name.now }
    ensures valid { IsName name.now }
{
    match str::from_utf8(name.as_bytes()) {
        Ok(text) => text,
        Err(_) => unreachable!("an identifier is ASCII"),
    }
}

impl ListItem for Name {
    ghost json = { string };

    ghost is_part = { IsName };

    fn value(&self, alloc: Global) -> Result<Value, AllocError> {
        Value::try_from_str(alloc, name_text(self))
    }
}

// The list, if it has an item.
pub fn list_part(values: Vec<Value>) -> Option<Value>
    ensures { option_map view result ≡ unless_empty (items_view values.items) }
{
    if values.is_empty() {
        return None;
    }
    Some(Value::Array(values))
}

// The list of the names, if there are any.
pub fn names_part(alloc: Global, names: &Seq<Name>) -> Result<Option<Value>, AllocError>
    ensures part { IfOk result (λ part. option_map view part ≡ unless_empty (listed string names.now)) }
    ensures valid { OnOk result (AreNames names.now) }
{
    Ok(list_part(list_values(alloc, names.as_slice())?))
}

// Adds the part, if there is one.
pub fn put_part(
    members: &mut Map<String, Value>,
    alloc: Global,
    key: &str,
    part: Option<Value>,
) -> Result<(), AllocError>
    ensures { OnOk result (members_view members.new.entries
        ≡ built.put_part key.now (option_map view part) (members_view members.old.entries)) }
{
    match part {
        None => Ok(()),
        Some(value) => put(members, alloc, key, value),
    }
}
