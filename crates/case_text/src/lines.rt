// Bytes as lines.

use std::alloc::{AllocError, Global};

/// Appends the lines that show the bytes, each with the mark in front.
///
/// A line of printable ASCII that ends with LF is shown by `|` and itself. Any other line, and what follows the last LF, is
/// shown by `+ `, its bytes with the escapes that are read, and LF. No bytes are shown by no line.
pub fn add_lines(
    alloc: Global,
    mark: &str,
    bytes: &[u8],
    into: &mut Vec<u8>,
) -> Result<(), AllocError> {
    for line in bytes.split_inclusive(|byte| *byte == b'\n') {
        into.extend_from_slice(mark.as_bytes())?;
        if is_plain(line) {
            into.extend_from_slice(b"|")?;
            into.extend_from_slice(line)?;
        } else {
            into.extend_from_slice(b"+ ")?;
            add_escaped(alloc, line, into)?;
            into.extend_from_slice(b"\n")?;
        }
    }
    Ok(())
}

// Whether the line is printable ASCII and ends with LF.
fn is_plain(line: &[u8]) -> bool {
    match line {
        [text @ .., b'\n'] => text.iter().all(|byte| is_printable(*byte)),
        _ => false,
    }
}

fn is_printable(byte: u8) -> bool {
    byte == b' ' || byte.is_ascii_graphic()
}

// Appends the bytes with escapes.
fn add_escaped(alloc: Global, bytes: &[u8], into: &mut Vec<u8>) -> Result<(), AllocError> {
    for byte in bytes {
        match *byte {
            b'\n' => into.extend_from_slice(b"\\n")?,
            b'\r' => into.extend_from_slice(b"\\r")?,
            b'\t' => into.extend_from_slice(b"\\t")?,
            b'\\' => into.extend_from_slice(b"\\\\")?,
            plain if is_printable(plain) => into.extend_from_slice(&[plain])?,
            other => {
                let escape = format!(in alloc; "\\x{other:02x}")?;
                into.extend_from_slice(escape.as_bytes())?;
            }
        }
    }
    Ok(())
}
