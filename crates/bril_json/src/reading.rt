// Reading a whole source.

ghost use Rattle.std.specs.Prelude.{◌≡◌, ◌⊎◌, ◌^◌, ◌<◌, length, IfOk, IfErr, MatchResult, IsUtf8};
ghost use Rattle.bril_tree.specs.declared.tree.Tree.{Tree};
ghost use Rattle.bril_json.specs.Reading.{JsonOf, HasFault, IsFaultOf};
ghost use Rattle.bril_json.specs.declared.fault.JsonFault.{JsonFault};
ghost use Rattle.bril_json.specs.declared.fault.JsonFault.TheVariants.{Memory};

use crate::fault::JsonFault;
use crate::program::tree_of;
use bril_tree::tree::Tree;
use serde_json::Value;
use std::alloc::Global;
use std::str;

/// Reads a source in Bril's JSON form as the tree that it is.
///
/// `source` has fewer than 2^32 bytes, which are one JSON value. If an object has a key twice, the last one counts.
/// Keys that are not named here are ignored, and so is a key that is named here for another object, such as `args` of a
/// constant, `value` of another instruction, or `dest` of a label.
///
/// - The program has the list `functions`, and the list `imports` if there are any.
/// - An import has a `path` of 1 to 4,096 bytes, none of them `"`, `\` or below 0x20, and the list `functions` of at
///   least one object, each with a `name`, and with an `alias` if it has one.
/// - A function has a `name`; the list `args`, if there are any, of objects with `name` and `type`; the `type` that it
///   returns, if it returns one; and the list `instrs` of its items.
/// - A label has `label` and no `op`. A constant has `op`, which is `const`, `dest`, `type` and `value`: a whole number
///   of 64 bits, a boolean, or a text of one scalar value. Another instruction has `op`; `dest` and `type`, or neither;
///   and the lists of names `args`, `funcs` and `labels`, each if there are any.
/// - A type is `"int"`, `"bool"`, `"char"`, or an object whose `ptr` is a type. A name is an identifier.
///
/// A key with the value `null` is not missing. The value of a constant isn't compared with its type.
///
/// Errors:
///
/// - `Syntax` comes exactly where the source is not a JSON value: it is not UTF-8, begins with a byte order mark, has
///   something after the value, a lone surrogate, a number above every float, or lists and objects nested 128 deep.
/// - Otherwise the fault is the first in this order: the program's own keys, in the order above; its imports in order;
///   its functions in order, and of each its name, its arguments, its type, then its items; of an item `op`, `dest`,
///   `type`, `value`, `args`, `funcs`, `labels`. It has the numbers, from 0, of the function and the item that it is
///   in. `Float`: the type `"float"`, an operation on floats, or a `value` that is a number but neither an `i64` nor a
///   `u64`, such as `-0` and `1e3`. `IntRange`: a `value` that is a `u64` above the greatest `i64`. `Deep`: the 33rd
///   `ptr` of a type, counted from the outside, whatever is inside it. `Shape`: everything else that is not as above.
///   Where only one of `dest` and `type` is there, the missing one is the fault, in its turn; a label with an `op` is
///   one before anything of the operation.
/// - `Memory` may come for any source that is UTF-8, when memory runs out.
///
/// The JSON form is that of the Bril documentation (Cornell's CS 6120), "JSON representation", with its memory,
/// character, SSA, speculative execution and import extensions; JSON is that of RFC 8259. Takes time in proportion to
/// the source.
pub fn read_json(alloc: Global, source: &[u8]) -> Result<Tree, JsonFault>
    requires { length source.now < 2 ^ 32 }
    // What is read is the source's tree, and the source's tree is read.
    ensures found { IfOk result (λ tree. JsonOf source.now tree) }
    ensures reads { (tree : Tree) → JsonOf source.now tree
        → MatchResult result (λ read. read ≡ tree) (λ fault. fault ≡ Memory) }

    // The fault is the source's, and the source's fault is returned.
    ensures fault { IfErr result (λ fault. IsFaultOf source.now fault) }
    ensures faults { (why : JsonFault) → HasFault source.now why
        → MatchResult result (λ _. ⊥) (λ fault. (fault ≡ why) ⊎ (fault ≡ Memory)) }

    // Memory runs out only where the source is UTF-8.
    ensures memory { IfErr result (λ fault. fault ≡ Memory → IsUtf8 source.now) }
{
    let Ok(text) = str::from_utf8(source) else {
        return Err(JsonFault::Syntax);
    };
    match Value::from_str(alloc, text) {
        Ok(value) => tree_of(alloc, &value),
        Err(error) => {
            if error.is_memory() {
                Err(JsonFault::Memory)
            } else {
                Err(JsonFault::Syntax)
            }
        }
    }
}
