// Writing listings.

ghost use Rattle.std.specs.Prelude.{◌≡◌, ◌<◌, ◌++◌, ◌∷◌, [], pos, OnOk, OnErr};
ghost use Rattle.std.specs.Fmt.{signed_decimal};
ghost use Rattle.std.specs.List.{flat_map};
ghost use Rattle.rv64_listing.specs.Table.{Short, Long, At, Three};
ghost use Rattle.rv64_listing.specs.Line.{Name, written, operand_pieces, word_pieces, line_of, listing, register_text, hex_text};
ghost use Rattle.rv64_words.specs.Hexadecimal.{hex_digit};

use crate::form::{form_of, name_of};
use crate::register::register_name;
use bril_nums::put_int;
use bril_tree::bytes::Bytes;
use rv64_words::decoding::decode;
use rv64_words::field::Register;
use rv64_words::word::Word;
use std::alloc::AllocError;

/// Appends the listing of the words to `into`: a line for each, which ends with LF. `read_listing` gives the words back from it.
///
/// A word that `decode` knows is written as its mnemonic of the RISC-V manual in lower case with its operands, `lui x5, 74565` as
/// `ld x10, 8(x2)`; any other as `word` and its eight hexadecimal digits.
///
/// An error means out of memory, and leaves `into` as it was. Takes time in proportion to the words.
pub fn write_listing(words: &[u32], into: &mut Bytes) -> Result<(), AllocError>
    ensures text { OnOk result (into.new ≡ into.old ++ listing words.now) }
    ensures err { OnErr result (into.new ≡ into.old) }
{
    let mut text = into.fresh();
    put_lines(words, &mut text)?;
    into.add(text.as_slice())
}

// Appends the lines of the words.
fn put_lines(words: &[u32], into: &mut Bytes) -> Result<(), AllocError>
    ensures { OnOk result (into.new ≡ into.old ++ listing words.now) }
{
    for bits in words {
        put_line(*bits, into)?;
        into.add(b"\n")?;
    }
    Ok(())
}

// Appends the line of 32 bits, without LF.
fn put_line(bits: u32, into: &mut Bytes) -> Result<(), AllocError>
    ensures { OnOk result (into.new ≡ into.old ++ line_of bits) }
{
    match decode(bits) {
        Some(word) => put_word(word, into),
        None => {
            into.add(b"word ")?;
            put_hex(bits, into)?;
            Ok(())
        }
    }
}

// Appends the line of a word.
fn put_word(word: Word, into: &mut Bytes) -> Result<(), AllocError>
    ensures { OnOk result (into.new ≡ into.old ++ flat_map written (word_pieces word)) }
{
    let name = name_of(form_of(&word));
    match word {
        Word::Lui { rd, upper } => put_short(name, rd, upper.bits() as i64, into),
        Word::Jal { rd, offset } => put_short(name, rd, offset.bytes() as i64, into),
        Word::Jalr { rd, rs1, immediate } => {
            put_long(name, rd, rs1, immediate.value() as i64, into)
        }
        Word::Branch {
            rs1,
            rs2,
            offset,
            ..
        } => put_long(name, rs1, rs2, offset.bytes() as i64, into),
        Word::Ld { rd, rs1, immediate } => put_at(name, rd, immediate.value() as i64, rs1, into),
        Word::Sd {
            rs1,
            rs2,
            immediate,
        } => put_at(name, rs2, immediate.value() as i64, rs1, into),
        Word::OpImm {
            rd,
            rs1,
            immediate,
            ..
        } => put_long(name, rd, rs1, immediate.value() as i64, into),
        Word::ShiftImm { rd, rs1, shift, .. } => {
            put_long(name, rd, rs1, shift.amount() as i64, into)
        }
        Word::Op { rd, rs1, rs2, .. } => put_three(name, rd, rs1, rs2, into),
        Word::Ecall => into.add(name),
    }
}

// ---- operands

// The mnemonic, a register and a number.
fn put_short(name: &[u8], r: Register, n: i64, into: &mut Bytes) -> Result<(), AllocError>
    ensures { OnOk result (into.new ≡ into.old ++ flat_map written (Name name.now ∷ operand_pieces (Short r n))) }
{
    put_first(name, r, into)?;
    into.add(b", ")?;
    put_number(n, into)
}

// The mnemonic, two registers and a number.
fn put_long(
    name: &[u8],
    r: Register,
    s: Register,
    n: i64,
    into: &mut Bytes,
) -> Result<(), AllocError>
    ensures { OnOk result (into.new ≡ into.old ++ flat_map written (Name name.now ∷ operand_pieces (Long r s n))) }
{
    put_first(name, r, into)?;
    into.add(b", ")?;
    put_register(s, into)?;
    into.add(b", ")?;
    put_number(n, into)
}

// The mnemonic, a register, and a number with the register of an address.
fn put_at(name: &[u8], r: Register, n: i64, s: Register, into: &mut Bytes) -> Result<(), AllocError>
    ensures { OnOk result (into.new ≡ into.old ++ flat_map written (Name name.now ∷ operand_pieces (At r n s))) }
{
    put_first(name, r, into)?;
    into.add(b", ")?;
    put_number(n, into)?;
    into.add(b"(")?;
    put_register(s, into)?;
    into.add(b")")
}

// The mnemonic and three registers.
fn put_three(
    name: &[u8],
    r: Register,
    s: Register,
    t: Register,
    into: &mut Bytes,
) -> Result<(), AllocError>
    ensures { OnOk result (into.new ≡ into.old ++ flat_map written (Name name.now ∷ operand_pieces (Three r s t))) }
{
    put_first(name, r, into)?;
    into.add(b", ")?;
    put_register(s, into)?;
    into.add(b", ")?;
    put_register(t, into)
}

// The mnemonic, a blank, and the first register.
fn put_first(name: &[u8], r: Register, into: &mut Bytes) -> Result<(), AllocError>
    ensures { OnOk result (into.new ≡ into.old ++ (name.now ++ 32 ∷ register_text r)) }
{
    into.add(name)?;
    into.add(b" ")?;
    put_register(r, into)
}

fn put_register(register: Register, into: &mut Bytes) -> Result<(), AllocError>
    ensures { OnOk result (into.new ≡ into.old ++ register_text register) }
{
    into.add(register_name(register.number()))
}

fn put_number(number: i64, into: &mut Bytes) -> Result<(), AllocError>
    ensures { OnOk result (into.new ≡ into.old ++ signed_decimal number) }
{
    let mut text = [0u8; 20];
    let len = put_int(number, &mut text);
    into.add(&text[..len])
}

fn put_hex(bits: u32, into: &mut Bytes) -> Result<(), AllocError>
    ensures { OnOk result (into.new ≡ into.old ++ hex_text bits) }
{
    into.add([
        hex_digit((bits / 268435456 % 16) as u8),
        hex_digit((bits / 16777216 % 16) as u8),
        hex_digit((bits / 1048576 % 16) as u8),
        hex_digit((bits / 65536 % 16) as u8),
        hex_digit((bits / 4096 % 16) as u8),
        hex_digit((bits / 256 % 16) as u8),
        hex_digit((bits / 16 % 16) as u8),
        hex_digit((bits % 16) as u8),
    ]
    .as_slice())
}

fn hex_digit(digit: u8) -> u8
    requires { digit < 16 }
    ensures { result ≡ hex_digit digit }
{
    if digit < 10 {
        b'0' + digit
    } else {
        b'a' + (digit - 10)
    }
}
