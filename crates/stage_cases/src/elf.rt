// Images as ELF files.

use crate::listings::add_bits;
use crate::machine::{number_of, words_of};
use crate::row::add_line;
use bril_tree::bytes::Bytes;
use bril_tree::sequence::Seq;
use case_text::LineFault;
use elf_wrap::{ElfFault, open_elf, wrap};
use rv64_words::image::Image;
use std::alloc::{AllocError, Global};

/// Appends what the file opens as.
pub fn add_opened(alloc: Global, source: &[u8], shown: &mut Vec<u8>) -> Result<(), LineFault> {
    let answer = answer_of(alloc, source)?;
    shown.extend_from_slice(answer.as_slice())?;
    add_line("", shown)?;
    Ok(())
}

/// Appends the file of an image in hexadecimal digits, 16 bytes a line; then what opens as what: the file, each front of it, the
/// file with each byte changed in turn, and the file with a byte more. The line has the words of the stack, and the image's words.
pub fn add_wrapped(alloc: Global, line: &str, shown: &mut Vec<u8>) -> Result<(), LineFault> {
    let (stack, bits) = line.split_once(' ').unwrap_or((line, ""));
    let stack = u32::try_from(number_of(stack)?).map_err(|_| LineFault::Form)?;
    let image = Image {
        words: words_of(alloc, bits)?,
        guards: Seq::new(alloc),
        stack,
    };
    let mut file = Bytes::new(alloc);
    wrap(&image, &mut file)?;
    add_file(alloc, file.as_slice(), shown)?;
    add_opened(alloc, file.as_slice(), shown)?;
    add_fronts(alloc, file.as_slice(), shown)?;
    add_changes(alloc, file.as_slice(), shown)?;
    file.add(b"x")?;
    add_opened(alloc, file.as_slice(), shown)
}

/// Appends what the file of an image of words 0 opens as. The line has the words of the stack, and how many words the image has.
pub fn add_filled(alloc: Global, line: &str, shown: &mut Vec<u8>) -> Result<(), LineFault> {
    let (stack, count) = line.split_once(' ').ok_or(LineFault::Form)?;
    let stack = u32::try_from(number_of(stack)?).map_err(|_| LineFault::Form)?;
    let mut words = Seq::new(alloc);
    for _ in 0..number_of(count)? {
        words.push(0u32)?;
    }
    let image = Image {
        words,
        guards: Seq::new(alloc),
        stack,
    };
    let mut file = Bytes::new(alloc);
    wrap(&image, &mut file)?;
    add_opened(alloc, file.as_slice(), shown)
}

// Appends the bytes, 16 a line.
fn add_file(alloc: Global, file: &[u8], shown: &mut Vec<u8>) -> Result<(), AllocError> {
    for line in file.chunks(16) {
        for byte in line {
            let text = format!(in alloc; "{byte:02x}")?;
            shown.extend_from_slice(text.as_bytes())?;
        }
        add_line("", shown)?;
    }
    Ok(())
}

// Appends what the fronts of the file open as, where it isn't a fault at the end.
fn add_fronts(alloc: Global, file: &[u8], shown: &mut Vec<u8>) -> Result<(), LineFault> {
    for size in 0..file.len() {
        let answer = answer_of(alloc, &file[..size])?;
        let end = format!(in alloc; "at {size}")?;
        if answer.as_slice() != end.as_bytes() {
            let text = format!(in alloc; "front {size} ")?;
            shown.extend_from_slice(text.as_bytes())?;
            shown.extend_from_slice(answer.as_slice())?;
            add_line("", shown)?;
        }
    }
    Ok(())
}

// Appends what the file opens as with each byte changed in turn, where that isn't what it opens as with the byte before it changed.
fn add_changes(alloc: Global, file: &[u8], shown: &mut Vec<u8>) -> Result<(), LineFault> {
    let mut last = Vec::new(alloc);
    for at in 0..file.len() {
        let answer = changed_answer(alloc, file, at)?;
        if answer.as_slice() != last.as_slice() {
            let text = format!(in alloc; "from {at} ")?;
            shown.extend_from_slice(text.as_bytes())?;
            shown.extend_from_slice(answer.as_slice())?;
            add_line("", shown)?;
        }
        last = answer;
    }
    Ok(())
}

// What the file opens as with this byte changed in four bits.
fn changed_answer(alloc: Global, file: &[u8], at: usize) -> Result<Vec<u8>, AllocError> {
    let mut changed = Vec::new(alloc);
    for (place, byte) in file.iter().enumerate() {
        changed.push(if place == at { *byte ^ 0x55 } else { *byte })?;
    }
    answer_of(alloc, changed.as_slice())
}

// What the source opens as.
fn answer_of(alloc: Global, source: &[u8]) -> Result<Vec<u8>, AllocError> {
    let mut answer = Vec::new(alloc);
    match open_elf(alloc, source) {
        Err(ElfFault::Memory) => return Err(AllocError),
        Err(ElfFault::At { at }) => {
            let text = format!(in alloc; "at {at}")?;
            answer.extend_from_slice(text.as_bytes())?;
        }
        Err(ElfFault::CodeTooBig { words }) => {
            let text = format!(in alloc; "code {words}")?;
            answer.extend_from_slice(text.as_bytes())?;
        }
        Err(ElfFault::StackTooBig { words }) => {
            let text = format!(in alloc; "too large a stack {words}")?;
            answer.extend_from_slice(text.as_bytes())?;
        }
        Ok(image) => {
            let stack = image.stack;
            let text = format!(in alloc; "stack {stack} words")?;
            answer.extend_from_slice(text.as_bytes())?;
            add_bits(alloc, image.words.as_slice(), &mut answer)?;
        }
    }
    Ok(answer)
}
