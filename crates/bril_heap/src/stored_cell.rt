// What a cell holds, as it is kept: a kind, and a word where the kind doesn't say it all.

ghost use Rattle.std.specs.Prelude.{◌≡◌, Some, if◌then◌else◌};
ghost use Rattle.std.specs.Char.{IsScalar};
ghost use Rattle.bril_tree.specs.declared.value.Value.TheVariants as value;
ghost use Rattle.bril_heap.specs.declared.stored_cell.Kind.TheVariants as kind;
ghost use Rattle.bril_heap.specs.Stored.{cell_held};

use bril_tree::value::Value;

// How many offsets there are. The word of a pointer is its block times this many, and the 32 bits of its offset.
const OFFSETS: u64 = 0x1_0000_0000;

// What kind of value a cell holds, Never where it was never stored. A bool is told by its kind alone, without a word.
#[derive(Clone, Copy)]
pub enum Kind {
    Never,
    False,
    True,
    Int,
    Char,
    Ptr,
}

// The kind of a bool.
pub fn truth_kind(truth: bool) -> Kind
    ensures { result ≡ (if truth then kind.True else kind.False) }
{
    if truth { Kind::True } else { Kind::False }
}

// The word of a pointer.
pub fn pointer_word(block: u32, offset: i32) -> u64
    ensures { cell_held kind.Ptr result ≡ Some (value.Ptr block offset) }
{
    block as u64 * OFFSETS + offset.cast_unsigned() as u64
}

// The pointer of a word.
pub fn pointer_of(word: u64) -> Value
    ensures { Some result ≡ cell_held kind.Ptr word }
{
    Value::Ptr {
        block: (word / OFFSETS) as u32,
        offset: ((word % OFFSETS) as u32).cast_signed(),
    }
}

// The char of a word.
pub fn letter_of(word: u64) -> char
    requires { IsScalar word }
    ensures { result ≡ word }
{
    char::from_u32(word as u32).unwrap()
}
