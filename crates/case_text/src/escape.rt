// Bytes that a line writes with escapes.

use crate::fault::LineFault;
use std::alloc::Global;

// How far an escape is read.
#[derive(Clone, Copy, Drop)]
enum Escape {
    // In no escape.
    Outside,
    // After the backslash.
    Begun,
    // After `\x`.
    Hex,
    // After `\x` and one digit.
    Digit(u8),
}

/// Appends the bytes that the text writes.
///
/// Each byte stands for itself, but for the escapes: `\n`, `\r` and `\t`, `\\` for a backslash, `\xHH` for the byte of two
/// hexadecimal digits, `\#` for the number in plain decimal, and `\e` for nothing. Any other backslash is `Escape`.
pub fn add_unescaped(
    alloc: Global,
    text: &str,
    number: u64,
    into: &mut Vec<u8>,
) -> Result<(), LineFault> {
    let mut escape = Escape::Outside;
    for byte in text.bytes() {
        escape = match escape {
            Escape::Outside if byte == b'\\' => Escape::Begun,
            Escape::Outside => {
                into.extend_from_slice(&[byte])?;
                Escape::Outside
            }
            Escape::Begun if byte == b'x' => Escape::Hex,
            Escape::Begun => {
                add_escape(alloc, byte, number, into)?;
                Escape::Outside
            }
            Escape::Hex => Escape::Digit(digit(byte)?),
            Escape::Digit(high) => {
                into.extend_from_slice(&[(high << 4) | digit(byte)?])?;
                Escape::Outside
            }
        };
    }
    match escape {
        Escape::Outside => Ok(()),
        _ => Err(LineFault::Escape),
    }
}

// Appends the bytes of the escape of one letter.
fn add_escape(alloc: Global, letter: u8, number: u64, into: &mut Vec<u8>) -> Result<(), LineFault> {
    let byte = match letter {
        b'n' => b'\n',
        b'r' => b'\r',
        b't' => b'\t',
        b'\\' => b'\\',
        b'e' => return Ok(()),
        b'#' => {
            let decimal = format!(in alloc; "{number}")?;
            into.extend_from_slice(decimal.as_bytes())?;
            return Ok(());
        }
        _ => return Err(LineFault::Escape),
    };
    into.extend_from_slice(&[byte])?;
    Ok(())
}

// A hexadecimal digit.
fn digit(byte: u8) -> Result<u8, LineFault> {
    match char::from(byte).to_digit(16) {
        Some(digit) => Ok(digit as u8),
        None => Err(LineFault::Escape),
    }
}
