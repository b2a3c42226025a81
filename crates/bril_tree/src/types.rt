// Bril's types.

ghost use Rattle.std.specs.Prelude.{◌≡◌, ◌≤◌};
ghost use Rattle.bril_tree.specs.Spelling.{base_text};

/// A type that holds no other: the int, the bool and the char of Bril's core and character extensions.
#[derive(Clone, Copy, PartialEq, Eq, Debug, Drop)]
pub enum Base {
    Int,
    Bool,
    Char,
}

impl Base {
    /// How the type is spelled, in the words of the Bril documentation. Takes no memory.
    pub fn name(self) -> &'static str
        ensures { result.now ≡ base_text self }
    {
        match self {
            Base::Int => "int",
            Base::Bool => "bool",
            Base::Char => "char",
        }
    }
}

/// A type: `depth` times `ptr` around a base, at most 32 times.
#[derive(Clone, Copy, PartialEq, Eq, Debug, Drop)]
pub struct Ty {
    pub depth: u8,
    pub base: Base,
    pub ghost nests: { depth ≤ 32 },
}
