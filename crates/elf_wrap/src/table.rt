// The fields before the words.

ghost use Rattle.std.specs.Prelude.{◌≡◌, ◌<◌, ◌^◌};
ghost use Rattle.elf_wrap.specs.Form.{fields};

/// A field of a file: a number of `size` bytes, the low ones first.
#[derive(Clone, Copy, PartialEq, Eq, Debug, Drop)]
pub struct Field {
    pub size: u8,
    pub value: u64,
}

// A field of so many bytes.
const fn row(size: u8, value: u64) -> Field
    ensures { result ≡ record { size = size; value = value } }
{
    Field { size, value }
}

// The fields before so many words, for a stack of so many words of 64 bits: the identification; type, machine, version; entry,
// program headers, section headers; flags, sizes and counts; then the headers of the code and of the stack.
pub fn fields(words: u64, stack: u64) -> [Field; 30]
    requires words { words < 2 ^ 62 }
    requires stack { stack < 2 ^ 61 }
    ensures { result ≡ fields words stack }
{
    [
        row(16, 0x010102464c457f),
        row(2, 2),
        row(2, 243),
        row(4, 1),
        row(8, 0),
        row(8, 64),
        row(8, 0),
        row(4, 0),
        row(2, 64),
        row(2, 56),
        row(2, 2),
        row(2, 0),
        row(2, 0),
        row(2, 0),
        row(4, 1),
        row(4, 5),
        row(8, 176),
        row(8, 0),
        row(8, 0),
        row(8, 4 * words),
        row(8, 4 * words),
        row(8, 4),
        row(4, 1),
        row(4, 6),
        row(8, 0),
        row(8, 0x1000_0000),
        row(8, 0x1000_0000),
        row(8, 0),
        row(8, 8 * stack),
        row(8, 8),
    ]
}
