// Writing the canonical JSON of a file.

ghost use Rattle.std.specs.Prelude.{◌≡◌, ◌++◌, OnOk, OnErr, IfOk};
ghost use Rattle.bril_tree.specs.TreeForm.{IsTaken, IsImport, IsDest, IsFunction, IsTree};
ghost use Rattle.bril_tree.specs.declared.tree.Tree.{Tree};
ghost use Rattle.serde_json.specs.View.{view};
ghost use Rattle.bril_json.specs.Canonical.{argument_json, function_json, taken_json, import_json, json_of, canonical_json};
ghost use Rattle.bril_json.specs.Reading.{JsonOf};

mod item;
pub mod laws;
mod part;

use bril_tree::bytes::Bytes;
use bril_tree::function_tree::{Dest, FuncTree, Item};
use bril_tree::import::{Import, Taken};
use bril_tree::tree::Tree;
use item::{type_part, type_value};
use part::{ListItem, list_part, list_values, name_text, put_part};
use serde_json::{Map, Value, json, put};
use std::alloc::{AllocError, Global};

/// Appends the canonical JSON of the tree to `into`: compact JSON (RFC 8259) with the keys of each object in
/// alphabetical order. Empty lists and missing parts are left out, except for the lists `functions` of the program and
/// of an import and `instrs` of a function, which are always there.
///
/// In Bril's JSON form (the Bril documentation, "JSON representation") it is this tree and no other. An error means out
/// of memory, and leaves `into` as it was.
pub fn write_json(alloc: Global, tree: &Tree, into: &mut Bytes) -> Result<(), AllocError>
    ensures text { OnOk result (into.new ≡ into.old ++ canonical_json tree.now) }
    ensures err { OnErr result (into.new ≡ into.old) }
    ensures valid { OnOk result (IsTree tree.now) }
    ensures reads { OnOk result (JsonOf (canonical_json tree.now) tree.now) }
    ensures alone { OnOk result ((other : Tree) → JsonOf (canonical_json tree.now) other → other ≡ tree.now) }
{
    let text = tree_text(alloc, tree)?;
    into.add(text.as_slice())
}

// The canonical JSON of a tree.
fn tree_text(alloc: Global, tree: &Tree) -> Result<Vec<u8>, AllocError>
    ensures text { IfOk result (λ text. text.items ≡ canonical_json tree.now) }
    ensures valid { OnOk result (IsTree tree.now) }
{
    let value = tree_value(alloc, tree)?;
    value.to_vec(alloc)
}

// The JSON value of a tree.
fn tree_value(alloc: Global, tree: &Tree) -> Result<Value, AllocError>
    ensures value { IfOk result (λ v. view v ≡ json_of tree.now) }
    ensures valid { OnOk result (IsTree tree.now) }
{
    let functions = list_values(alloc, tree.funcs.as_slice())?;
    let imports = list_values(alloc, tree.imports.as_slice())?;
    let mut members = Map::new(alloc);
    put(&mut members, alloc, "functions", Value::Array(functions))?;
    put_part(&mut members, alloc, "imports", list_part(imports))?;
    Ok(Value::Object(members))
}

impl ListItem for Import {
    ghost json = { import_json };

    ghost is_part = { IsImport };

    fn value(&self, alloc: Global) -> Result<Value, AllocError> {
        let functions = list_values(alloc, self.names.as_slice())?;
        let path = self.path.as_str();
        json!(in alloc; {"functions": functions, "path": path})
    }
}

impl ListItem for Taken {
    ghost json = { taken_json };

    ghost is_part = { IsTaken };

    // The function's name, and its other name here if it has one.
    fn value(&self, alloc: Global) -> Result<Value, AllocError> {
        let name = name_text(&self.name);
        match &self.alias {
            None => json!(in alloc; {"name": name}),
            Some(alias) => json!(in alloc; {"alias": name_text(alias), "name": name}),
        }
    }
}

impl ListItem for FuncTree {
    ghost json = { function_json };

    ghost is_part = { IsFunction };

    // The members are added in the order of their keys.
    fn value(&self, alloc: Global) -> Result<Value, AllocError> {
        let args = list_values(alloc, self.args.as_slice())?;
        let items = list_values(alloc, self.code.as_slice())?;
        let name = self.name.value(alloc)?;
        let ret = type_part(alloc, &self.ret)?;
        let mut members = Map::new(alloc);
        put_part(&mut members, alloc, "args", list_part(args))?;
        put(&mut members, alloc, "instrs", Value::Array(items))?;
        put(&mut members, alloc, "name", name)?;
        put_part(&mut members, alloc, "type", ret)?;
        Ok(Value::Object(members))
    }
}

impl ListItem for Dest {
    ghost json = { argument_json };

    ghost is_part = { IsDest };

    // An argument of a function: its name and its type.
    fn value(&self, alloc: Global) -> Result<Value, AllocError> {
        let ty = type_value(alloc, &self.ty)?;
        json!(in alloc; {"name": name_text(&self.name), "type": ty})
    }
}
