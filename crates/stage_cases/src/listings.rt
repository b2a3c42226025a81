// Listings of machine words.

ghost use Rattle.std.specs.Prelude.{◌<◌, ◌^◌, length};

use crate::machine::words_of;
use crate::row::add_line;
use bril_tree::bytes::Bytes;
use case_text::{LineFault, add_lines};
use rv64_listing::{ListingFault, read_listing, write_listing};
use std::alloc::{AllocError, Global};

/// Appends the listing of the words, each of eight hexadecimal digits.
pub fn add_listing(alloc: Global, bits: &str, shown: &mut Vec<u8>) -> Result<(), LineFault> {
    let words = words_of(alloc, bits)?;
    let mut text = Bytes::new(alloc);
    write_listing(words.as_slice(), &mut text)?;
    add_lines(alloc, "", text.as_slice(), shown)?;
    Ok(())
}

/// Appends the words of the listing, or its first line that tells no word.
pub fn add_words(alloc: Global, source: &[u8], shown: &mut Vec<u8>) -> Result<(), LineFault>
    requires { length source.now < 2 ^ 32 }
{
    match read_listing(alloc, source) {
        Err(ListingFault::Memory) => return Err(LineFault::Memory),
        Err(ListingFault::Line { line }) => {
            let line = format!(in alloc; "line {line}")?;
            add_line(line.as_str(), shown)?;
        }
        Ok(words) => {
            shown.extend_from_slice(b"words")?;
            add_bits(alloc, words.as_slice(), shown)?;
            add_line("", shown)?;
        }
    }
    Ok(())
}

/// Appends a blank and eight hexadecimal digits for each word.
pub fn add_bits(alloc: Global, words: &[u32], shown: &mut Vec<u8>) -> Result<(), AllocError> {
    for word in words {
        let text = format!(in alloc; " {word:08x}")?;
        shown.extend_from_slice(text.as_bytes())?;
    }
    Ok(())
}
