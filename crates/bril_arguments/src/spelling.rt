// The value that a word spells.

ghost use Rattle.std.specs.Prelude.{◌≡◌, ℕ, Bool, Some, IfSome, encode_utf8};
ghost use Rattle.std.specs.Char.{IsScalar};
ghost use Rattle.bril_tree.specs.Value.{bool_text};
ghost use Rattle.bril_tree.specs.declared.value.Value.{Value};
ghost use Rattle.bril_arguments.specs.Spelled.{IsSpelled};

use bril_nums::read_int;
use bril_tree::text::Text;
use bril_tree::types::{Base, Ty};
use bril_tree::value::Value;

// The value of the type that the word spells, and None exactly where it spells none.
pub fn read_value(ty: Option<Ty>, word: &Text) -> Option<Value>
    ensures found { IfSome result (λ value. IsSpelled ty word.now value) }
    ensures each { (value : Value) → IsSpelled ty word.now value → result ≡ Some value }
{
    let ty = ty?;
    if ty.depth > 0 {
        return None;
    }
    match ty.base {
        Base::Int => Some(Value::Int(read_int(word.as_bytes())?)),
        Base::Bool => Some(Value::Bool(read_bool(word.as_str())?)),
        Base::Char => Some(Value::Char(read_char(word.as_str())?)),
    }
}

// The bool whose word this is, and None exactly where it is neither's.
fn read_bool(word: &str) -> Option<bool>
    ensures found { IfSome result (λ b. word.now ≡ bool_text b) }
    ensures each { (b : Bool) → word.now ≡ bool_text b → result ≡ Some b }
{
    match word {
        "false" => Some(false),
        "true" => Some(true),
        _ => None,
    }
}

// The char that is the whole word, and None exactly where the word is no single char.
fn read_char(word: &str) -> Option<char>
    ensures found { IfSome result (λ c. (word.now ≡ encode_utf8 c) × IsScalar c) }
    ensures each { (c : ℕ) → word.now ≡ encode_utf8 c → IsScalar c → result ≡ Some c }
{
    let mut letters = word.chars();
    let letter = letters.next()?;
    if letters.as_str().is_empty() {
        Some(letter)
    } else {
        None
    }
}
