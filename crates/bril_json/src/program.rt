// Reading a program.

ghost use Rattle.std.specs.Prelude.{◌≡◌, ◌⊎◌, IfOk, IfErr, Ok, Err};
ghost use Rattle.serde_json.specs.View.{view};
ghost use Rattle.bril_json.specs.Form.{tree_of};
ghost use Rattle.bril_json.specs.declared.fault.JsonFault.TheVariants.{Memory};

use crate::fault::JsonFault;
use crate::functions::functions_of;
use crate::imports::imports_of;
use crate::keys::{list_at, list_or_none};
use crate::position::Position;
use bril_tree::tree::Tree;
use serde_json::Value;
use std::alloc::Global;

// The tree that a value is: first its own keys, then its imports, then its functions.
pub fn tree_of(alloc: Global, object: &Value) -> Result<Tree, JsonFault>
    ensures ok { IfOk result (λ tree. tree_of (view object.now) ≡ Ok tree) }
    ensures err { IfErr result (λ fault. (fault ≡ Memory) ⊎ (tree_of (view object.now) ≡ Err fault)) }
{
    let functions = list_at(Position::file(), object, "functions")?;
    let listed = list_or_none(Position::file(), object.get("imports"))?;
    let imports = imports_of(alloc, listed)?;
    let funcs = functions_of(alloc, functions)?;
    Ok(Tree { imports, funcs })
}
