// Reading the value of a constant.

ghost use Rattle.std.specs.Prelude.{◌≡◌};
ghost use Rattle.std.specs.Str.{chars};
ghost use Rattle.serde_json.specs.Find.{as_i64, as_u64};
ghost use Rattle.serde_json.specs.View.{view, number_view};
ghost use Rattle.bril_json.specs.Form.{literal_of, int_of, char_of};

use crate::fault::JsonFault;
use crate::position::Position;
use bril_tree::value::Lit;
use serde_json::{Number, Value};

// A whole number, a boolean, or a text of one scalar value.
pub fn literal_of(func: u32, item: u32, value: &Value) -> Result<Lit, JsonFault>
    ensures { result ≡ literal_of func item (view value.now) }
{
    match value {
        Value::Bool(value) => Ok(Lit::Bool(*value)),
        Value::Number(number) => int_of(func, item, number),
        Value::String(text) => char_of(Position::item(func, item), text.as_str()),
        _ => Err(Position::item(func, item).shape()),
    }
}

// A number that is an int.
fn int_of(func: u32, item: u32, number: &Number) -> Result<Lit, JsonFault>
    ensures { result ≡ int_of func item (as_i64 (number_view number.now)) (as_u64 (number_view number.now)) }
{
    match number.as_i64() {
        Some(value) => Ok(Lit::Int(value)),
        None if number.is_u64() => Err(JsonFault::IntRange { func, item }),
        None => Err(Position::item(func, item).float()),
    }
}

// The one scalar value of a text.
fn char_of(position: Position, text: &str) -> Result<Lit, JsonFault>
    ensures { result ≡ char_of position (chars text.now) }
{
    let mut scalars = text.chars();
    match scalars.next() {
        None => Err(position.shape()),
        Some(scalar) => {
            if scalars.as_str().is_empty() {
                Ok(Lit::Char(scalar))
            } else {
                Err(position.shape())
            }
        }
    }
}
