// Reading the file of an image.

ghost use Rattle.std.specs.Prelude.{◌≡◌, ◌*◌, ◌/◌, ◌≤◌, ◌<◌, ◌^◌, ◌==◌, ℕ, List, [], length, take, drop, Some, None, IfOk, IfErr, IsErrOf, MatchResult, MatchOption};
ghost use Rattle.elf_wrap.specs.Form.{elf_fault, field_fault, size_fault, words_in};
ghost use Rattle.elf_wrap.specs.Laws.{Opens, IsFile, IsFaultOf};
ghost use Rattle.elf_wrap.specs.Numbers.{le_number};
ghost use Rattle.elf_wrap.specs.declared.fault.ElfFault.{ElfFault};
ghost use Rattle.elf_wrap.specs.declared.fault.ElfFault.TheVariants.{Memory};

use crate::fault::ElfFault;
use crate::table::{Field, fields};
use bril_tree::sequence::Seq;
use rv64_words::image::Image;
use rv64_words::region::{MOST_STACK, MOST_WORDS};
use std::alloc::{AllocError, Global};

const HEADER_SIZE: usize = 176;

/// The image of which the source is the file, as `wrap` writes it, without guards.
///
/// Errors, in this order: `At` with the byte offset of the first field that isn't as it must be, the source's length where it
/// ends too early, or the offset behind the words where bytes follow; `CodeTooBig` with the number of words where it passes
/// 250,000; `StackTooBig` with the stack's number of words of 64 bits where it passes 8,388,608. `Memory`, when memory runs
/// out for the image of a source without such a fault.
///
/// Takes time in proportion to the source.
pub fn open_elf(alloc: Global, source: &[u8]) -> Result<Image, ElfFault>
    // What is opened is the image of which the source is the file, and the file of an image is opened.
    ensures found { IfOk result (λ image. IsFile source.now image.stack image.words) }
    ensures guards { IfOk result (λ image. image.guards ≡ []) }
    ensures opens { (stack : ℕ) (words : List ℕ) → IsFile source.now stack words
        → MatchResult result (λ image. (image.stack ≡ stack) × (image.words ≡ words)) (λ fault. fault ≡ Memory) }

    // The fault is the first one, and the first one is answered. Memory is wanting for a source without fault alone.
    ensures fault { IfErr result (IsFaultOf source.now) }
    ensures faults { (first : ElfFault) → elf_fault source.now ≡ Some first → IsErrOf result first }
{
    image_of(alloc, source)
}

// The image that a source without fault tells, or the first fault.
fn image_of(alloc: Global, source: &[u8]) -> Result<Image, ElfFault>
    ensures found { IfOk result (λ image. Opens source.now image.stack image.words) }
    ensures guards { IfOk result (λ image. image.guards ≡ []) }
    ensures fault { IfErr result (IsFaultOf source.now) }
{
    if let Some(fault) = fault_of(source) {
        return Err(fault);
    }
    Ok(read_image(alloc, source)?)
}

// The image that a source without fault tells.
fn read_image(alloc: Global, source: &[u8]) -> Result<Image, AllocError>
    requires right { elf_fault source.now ≡ None }
    requires long { 176 ≤ length source.now }
    ensures found { IfOk result (λ image. Opens source.now image.stack image.words) }
    ensures guards { IfOk result (λ image. image.guards ≡ []) }
{
    let stack = number_at(source, 160) / 8;
    let words = read_words(alloc, &source[HEADER_SIZE..])?;
    Ok(Image {
        words,
        guards: Seq::new(alloc),
        stack: stack as u32,
    })
}

// The first fault of a source. Takes no memory.
fn fault_of(source: &[u8]) -> Option<ElfFault>
    ensures { result ≡ elf_fault source.now }
{
    let words = number_at(source, 96) / 4;
    let stack = number_at(source, 160) / 8;
    if let Some(at) = first_bad_field(fields(words, stack).as_slice(), source) {
        return Some(ElfFault::At { at });
    }
    bad_size(source.len() as u64, words, stack)
}

// The offset of the first field that isn't as it must be, or the length of a source that ends too early.
fn first_bad_field(fields: &[Field], source: &[u8]) -> Option<u64>
    ensures { result ≡ field_fault 0 fields.now source.now }
{
    let mut rest = source;
    let mut at: u64 = 0;
    for field in fields {
        let size = field.size as usize;
        if rest.len() < size {
            return Some(source.len() as u64);
        }
        if !is_number(&rest[..size], field.value) {
            return Some(at);
        }
        rest = &rest[size..];
        at += size as u64;
    }
    None
}

// What is wrong with the size of a source whose fields tell so many words, or with these numbers.
fn bad_size(size: u64, words: u64, stack: u64) -> Option<ElfFault>
    ensures { result ≡ size_fault size words stack }
{
    let header = HEADER_SIZE as u64;
    if size < header || (size - header) / 4 < words {
        return Some(ElfFault::At { at: size });
    }
    let end = header + 4 * words;
    if end < size {
        return Some(ElfFault::At { at: end });
    }
    if (MOST_WORDS as u64) < words {
        return Some(ElfFault::CodeTooBig { words });
    }
    if (MOST_STACK as u64) < stack {
        return Some(ElfFault::StackTooBig { words: stack });
    }
    None
}

// The words of all these bytes.
fn read_words(alloc: Global, bytes: &[u8]) -> Result<Seq<u32>, AllocError>
    ensures { IfOk result (λ words. words ≡ words_in (length bytes.now / 4) bytes.now) }
{
    let mut words = Seq::new(alloc);
    let mut rest = bytes;
    'words: while let Some((word, after)) = next_word(rest) {
        words.push(word)?;
        rest = after;
    }
    Ok(words)
}

// The word of the first four bytes, and what stands behind it.
fn next_word(bytes: &[u8]) -> Option<(u32, &[u8])>
    ensures { MatchOption result (length bytes.now < 4) (λ p. (4 ≤ length bytes.now) × (p.0 ≡ le_number (take 4 bytes.now)) × (p.1.now ≡ drop 4 bytes.now)) }
{
    if bytes.len() < 4 {
        return None;
    }
    Some((number_of(&bytes[..4]) as u32, &bytes[4..]))
}

// ---- numbers

// Whether the bytes are this number, the low ones first. Takes no memory.
fn is_number(bytes: &[u8], value: u64) -> bool
    ensures { result ≡ (le_number bytes.now == value) }
{
    let mut rest = value;
    for byte in bytes {
        if *byte as u64 != rest % 256 {
            return false;
        }
        rest /= 256;
    }
    rest == 0
}

// The number of the eight bytes at an offset, or of those that are there.
fn number_at(source: &[u8], at: usize) -> u64
    ensures { result ≡ le_number (take 8 (drop at source.now)) }
{
    if source.len() < at {
        return 0;
    }
    let rest = &source[at..];
    if rest.len() < 8 {
        return number_of(rest);
    }
    number_of(&rest[..8])
}

// The number of at most eight bytes.
fn number_of(bytes: &[u8]) -> u64
    requires { length bytes.now ≤ 8 }
    ensures { result ≡ le_number bytes.now }
{
    let mut number: u64 = 0;
    let mut i = bytes.len();
    'bytes: while i > 0 {
        i -= 1;
        number = 256 * number + bytes[i] as u64;
    }
    number
}
