// What `print` shows of a value.

ghost use Rattle.std.specs.Prelude.{◌≡◌, ◌≤◌, ◌<◌, ◌++◌, ◌∷◌, [], ℕ, List, take, length};
ghost use Rattle.bril_tree.specs.Value.{shown};

use bril_nums::put_int;
use bril_tree::value::Value;
use std::marker::Model;

/// A value as `print` shows it, and one byte behind it. Contracts see the bytes.
#[derive(Drop)]
pub struct PrintedValue {
    bytes: [u8; 24],
    length: usize,
}

impl Model for PrintedValue {
    ghost Value = { List ℕ };

    ghost view = { λ s. take s.length s.bytes };

    ghost invariant = { λ s. s.length ≤ 24 };
}

impl PrintedValue {
    /// The value as `print` shows it: an int in plain decimal, a bool by its word, a char in UTF-8, nothing of a pointer;
    /// and the byte `end` behind it. Takes no memory.
    pub fn of(value: Value, end: u8) -> PrintedValue
        ensures { result ≡ shown value ++ end ∷ [] }
    {
        let mut bytes = [0; 24];
        let length = put_value(value, &mut bytes);
        bytes[length] = end;
        PrintedValue {
            bytes,
            length: length + 1,
        }
    }

    /// The bytes. Takes no memory.
    pub fn as_bytes(&self) -> &[u8]
        ensures { result.now ≡ self.now }
    {
        &self.bytes[..self.length]
    }
}

// Writes what `print` shows into the first bytes, and gives their number.
fn put_value(value: Value, into: &mut [u8; 24]) -> usize
    ensures text { take result into.new ≡ shown value }
    ensures short { result < 24 }
{
    match value {
        Value::Int(n) => {
            let mut decimal = [0; 20];
            let length = put_int(n, &mut decimal);
            put(&decimal[..length], into)
        }
        Value::Bool(false) => put(b"false", into),
        Value::Bool(true) => put(b"true", into),
        Value::Char(c) => {
            let mut units = [0; 4];
            put(c.encode_utf8(&mut units).as_bytes(), into)
        }
        Value::Ptr { .. } => 0,
    }
}

// Writes the text into the first bytes, and gives its length.
fn put(text: &[u8], into: &mut [u8; 24]) -> usize
    requires { length text.now ≤ 20 }
    ensures text { take result into.new ≡ text.now }
    ensures length { result ≡ length text.now }
{
    into[..text.len()].copy_from_slice(text);
    text.len()
}
