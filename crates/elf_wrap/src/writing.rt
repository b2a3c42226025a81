// Writing the file of an image.

ghost use Rattle.std.specs.Prelude.{◌≡◌, ◌++◌, OnOk, OnErr};
ghost use Rattle.std.specs.List.{flat_map};
ghost use Rattle.elf_wrap.specs.Form.{field_bytes, wrapped};
ghost use Rattle.elf_wrap.specs.Numbers.{le_bytes};

use crate::table::{Field, fields};
use bril_tree::bytes::Bytes;
use rv64_words::image::Image;
use std::alloc::AllocError;

/// Appends the file of the image to `into`: a header of 176 bytes, then four bytes for each word, the low ones first. The
/// header is that of an ELF64 file for RISC-V, with one segment for the code at address 0 and one for the stack. `open_elf`
/// gives the image back from it, without its guards, where it has at most 250,000 words and 8,388,608 words of stack.
///
/// An error means out of memory, and leaves `into` as it was. Takes time in proportion to the image.
pub fn wrap(image: &Image, into: &mut Bytes) -> Result<(), AllocError>
    ensures file { OnOk result (into.new ≡ into.old ++ wrapped image.now.stack image.now.words) }
    ensures err { OnErr result (into.new ≡ into.old) }
{
    let words = image.words.as_slice();
    let table = fields(words.len() as u64, image.stack as u64);
    let mut file = into.fresh();
    put_fields(table.as_slice(), &mut file)?;
    put_words(words, &mut file)?;
    into.add(file.as_slice())
}

// Appends the bytes of the fields.
fn put_fields(fields: &[Field], into: &mut Bytes) -> Result<(), AllocError>
    ensures { OnOk result (into.new ≡ into.old ++ flat_map field_bytes fields.now) }
{
    for field in fields {
        put_number(field.size, field.value, into)?;
    }
    Ok(())
}

// Appends the bytes of the words.
fn put_words(words: &[u32], into: &mut Bytes) -> Result<(), AllocError>
    ensures { OnOk result (into.new ≡ into.old ++ flat_map (le_bytes 4) words.now) }
{
    for word in words {
        put_number(4, *word as u64, into)?;
    }
    Ok(())
}

// Appends so many bytes of the number, the low ones first.
fn put_number(size: u8, value: u64, into: &mut Bytes) -> Result<(), AllocError>
    ensures { OnOk result (into.new ≡ into.old ++ le_bytes size value) }
{
    let mut rest = value;
    for i in 0..size {
        into.add([(rest % 256) as u8].as_slice())?;
        rest /= 256;
    }
    Ok(())
}
