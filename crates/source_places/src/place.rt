// The line and the column of a byte.

ghost use Rattle.std.specs.Prelude.{◌≡◌, ◌≤◌, ◌+◌, length, count_by};
ghost use Rattle.source_places.specs.Place.{IsPlace, BeginsLine, EndsLine, ends_line, begins_character};

/// Where a byte of a source stands: its line and its column, both from 1, and the bytes of the line, from `from` up to `to`.
#[derive(Clone, Copy, PartialEq, Eq, Debug, Drop)]
pub struct Place {
    pub line: usize,
    pub column: usize,
    pub from: usize,
    pub to: usize,
}

/// The place of a byte of a source, or of its end. Lines end with LF; the column counts characters of UTF-8.
pub fn place_of(source: &[u8], at: usize) -> Place
    requires { at ≤ length source.now }
    ensures { IsPlace source.now at result }
{
    let from = line_start(source, at);
    Place {
        line: 1 + lines_ended(&source[..at]),
        column: 1 + characters(&source[from..at]),
        from,
        to: line_end(source, at),
    }
}

// Where the line begins in which this byte stands.
fn line_start(source: &[u8], at: usize) -> usize
    requires { at ≤ length source.now }
    ensures { BeginsLine source.now at result }
{
    let mut from = 0;
    for i in 0..at {
        if source[i] == b'\n' {
            from = i + 1;
        }
    }
    from
}

// Where this line ends: at the next LF, or at the end of the source.
fn line_end(source: &[u8], at: usize) -> usize
    requires { at ≤ length source.now }
    ensures { EndsLine source.now at result }
{
    for i in at..source.len() {
        if source[i] == b'\n' {
            return i;
        }
    }
    source.len()
}

// How many lines end in these bytes.
fn lines_ended(bytes: &[u8]) -> usize
    ensures { result ≡ count_by ends_line bytes.now }
{
    bytes.iter().filter(|byte| **byte == b'\n').count()
}

// How many characters begin in these bytes.
fn characters(bytes: &[u8]) -> usize
    ensures { result ≡ count_by begins_character bytes.now }
{
    bytes.iter().filter(|byte| begins_character(**byte)).count()
}

/// Whether the byte begins a character of UTF-8, and doesn't go on with one.
pub fn begins_character(byte: u8) -> bool
    ensures { result ≡ begins_character byte }
{
    byte < 128 || byte >= 192
}
