// Literals and values.

ghost use Rattle.std.specs.Prelude.{◌≡◌};
ghost use Rattle.bril_tree.specs.Value.{literal_value};

/// A literal of a `const`.
#[derive(Clone, Copy, PartialEq, Eq, Debug, Drop)]
pub enum Lit {
    Int(i64),
    Bool(bool),
    Char(char),
}

impl Lit {
    /// The value of the literal. Takes no memory.
    pub fn value(self) -> Value
        ensures { result ≡ literal_value self }
    {
        match self {
            Lit::Int(number) => Value::Int(number),
            Lit::Bool(truth) => Value::Bool(truth),
            Lit::Char(letter) => Value::Char(letter),
        }
    }
}

/// A value: an int of 64 bits, a bool, a char, or a pointer, which is the number of a block and an
/// offset in it, counted in cells.
#[derive(Clone, Copy, PartialEq, Eq, Debug, Drop)]
pub enum Value {
    Int(i64),
    Bool(bool),
    Char(char),
    Ptr { block: u32, offset: i32 },
}
