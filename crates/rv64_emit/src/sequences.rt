// Short sequences of words at the end of an image: constants, words of the frame, faults and environment calls.

ghost use Rattle.std.specs.Prelude.{◌≡◌, ◌+◌, ◌*◌, ◌^◌, ◌<◌, ◌≤◌, ◌∷◌, [], ◌++◌, map, pos, OnOk};
ghost use Rattle.rv64_emit_laws.specs.layout.Items.{environment_words};
ghost use Rattle.rv64_words_laws.specs.sequences.Sequences.{high_part, low_part, jump_offset, fits_12, fits_32, constant_words, long_constant_words, load_words, store_words, fault_words, frame_by_words, constant_size, load_size, store_size, frame_by_size};
ghost use Rattle.rv64_words.specs.Calls.{call_number, fault_number};
ghost use Rattle.rv64_words.specs.Encoding.{encoded};
ghost use Rattle.rv64_words.specs.Region.{most_words};

use crate::assembly::{add, addi, jal, ld, lui, sd, slli};
use crate::registers::{ADDRESS, ARGUMENT, CALL, FRAME, SECOND, ZERO};
use bril_tree::limits::Fault;
use bril_tree::sequence::Seq;
use rv64_words::call::{Call, number_of_fault};
use rv64_words::encoding::encode;
use rv64_words::field::{Immediate, JumpOffset};
use rv64_words::word::Word;
use std::alloc::AllocError;

/// Appends the encodings of words. Out of memory some of them may be there.
pub fn put(code: &mut Seq<u32>, words: &[Word]) -> Result<(), AllocError>
    ensures { OnOk result (code.new ≡ code.old ++ map encoded words.now) }
{
    for word in words {
        code.push(encode(*word))?;
    }
    Ok(())
}

// ---- numbers in digits of 12 bits

/// What is left of the number above its lowest 12 bits, which count as a signed number.
pub fn high_digits(n: u64) -> u64
    ensures { result ≡ high_part n }
{
    n / 4096 + n / 2048 % 2
}

/// The lowest 12 bits as a signed number.
pub fn low_digit(n: u64) -> Immediate
    ensures { result ≡ low_part n }
{
    let digit = (n % 4096) as i16;
    if digit < 2048 {
        Immediate::of(digit)
    } else {
        Immediate::of(digit - 4096)
    }
}

/// The number as an immediate.
pub fn number(n: u16) -> Immediate
    requires { n < 2048 }
    ensures { result ≡ pos n }
{
    Immediate::of(n as i16)
}

// ---- constants

// One ADDI gives the number.
fn is_of_12_bits(n: u64) -> bool
    ensures { result ≡ fits_12 n }
{
    n < 2048 || n >= 0xffff_ffff_ffff_f800
}

// LUI and ADDI give the number.
fn is_of_32_bits(n: u64) -> bool
    ensures { result ≡ fits_32 n }
{
    n < 0x7fff_f800 || n >= 0xffff_ffff_8000_0000
}

/// How many words put the number into a register.
pub fn constant_size_of(n: u64) -> u32
    ensures value { result ≡ constant_size n }
    ensures few { result ≤ 8 }
{
    if is_of_12_bits(n) {
        return 1;
    }
    if is_of_32_bits(n) { 2 } else { 8 }
}

// The number in a register by its digits of 12 bits, the highest first. LUI and ADDI give 32 bits; the other 32 are three digits
// more, and each takes SLLI and ADDI, since no word has a longer immediate: eight words in all.
fn long_constant(rd: u8, n: u64) -> [Word; 8]
    requires { rd < 32 }
    ensures { result ≡ long_constant_words rd n }
{
    let second = high_digits(n);
    let third = high_digits(second);
    let fourth = high_digits(third);
    [
        lui(rd, high_digits(fourth) as u32),
        addi(rd, rd, low_digit(fourth)),
        slli(rd, rd, 12),
        addi(rd, rd, low_digit(third)),
        slli(rd, rd, 12),
        addi(rd, rd, low_digit(second)),
        slli(rd, rd, 12),
        addi(rd, rd, low_digit(n)),
    ]
}

/// The number into a register.
pub fn put_constant(code: &mut Seq<u32>, rd: u8, n: u64) -> Result<(), AllocError>
    requires { rd < 32 }
    ensures { OnOk result (code.new ≡ code.old ++ map encoded (constant_words rd n)) }
{
    if is_of_12_bits(n) {
        return put(code, &[addi(rd, ZERO, low_digit(n))]);
    }
    if is_of_32_bits(n) {
        let high = lui(rd, (high_digits(n) % 0x10_0000) as u32);
        return put(code, &[high, addi(rd, rd, low_digit(n))]);
    }
    put(code, &long_constant(rd, n))
}

// ---- the frame

/// How many words load a word of the frame.
pub fn load_size_of(word: u64) -> u32
    ensures value { result ≡ load_size word }
    ensures few { result ≤ 3 }
{
    if word < 256 { 1 } else { 3 }
}

/// How many words store a word of the frame.
pub fn store_size_of(word: u64) -> u32
    ensures value { result ≡ store_size word }
    ensures few { result ≤ 3 }
{
    if word < 256 { 1 } else { 3 }
}

// The byte offset of a word near a base.
fn near_offset(word: u64) -> Immediate
    requires { word < 256 }
    ensures { result ≡ pos (8 * word) }
{
    Immediate::of(8 * word as i16)
}

// The upper part of the byte offset of a word far from a base, into a register.
fn far_offset(rd: u8, word: u64) -> Word
    requires rd { rd < 32 }
    requires word { word < 2 ^ 28 }
    ensures { result ≡ Word.Lui rd (high_part (8 * word)) }
{
    lui(rd, high_digits(8 * word) as u32)
}

/// A word of the frame into a register.
pub fn put_load(code: &mut Seq<u32>, rd: u8, word: u64) -> Result<(), AllocError>
    requires rd { rd < 32 }
    requires word { word < 2 ^ 28 }
    ensures { OnOk result (code.new ≡ code.old ++ map encoded (load_words rd word)) }
{
    if word < 256 {
        return put(code, &[ld(rd, FRAME, near_offset(word))]);
    }
    put(
        code,
        &[
            far_offset(ADDRESS, word),
            add(ADDRESS, ADDRESS, FRAME),
            ld(rd, ADDRESS, low_digit(8 * word)),
        ],
    )
}

/// A register into a word of the frame.
pub fn put_store(code: &mut Seq<u32>, rs2: u8, word: u64) -> Result<(), AllocError>
    requires rs2 { rs2 < 32 }
    requires word { word < 2 ^ 28 }
    ensures { OnOk result (code.new ≡ code.old ++ map encoded (store_words rs2 word)) }
{
    if word < 256 {
        return put(code, &[sd(FRAME, rs2, near_offset(word))]);
    }
    put(
        code,
        &[
            far_offset(ADDRESS, word),
            add(ADDRESS, ADDRESS, FRAME),
            sd(ADDRESS, rs2, low_digit(8 * word)),
        ],
    )
}

// ---- frames

/// How many words make register 2 grow by so many bytes, modulo 2^64.
pub fn frame_by_size_of(bytes: u64) -> u32
    ensures value { result ≡ frame_by_size bytes }
    ensures few { result ≤ 3 }
{
    if is_of_12_bits(bytes) { 1 } else { 3 }
}

/// Register 2 grows by so many bytes, a number of 32 bits.
pub fn put_frame_by(code: &mut Seq<u32>, bytes: u64) -> Result<(), AllocError>
    ensures { OnOk result (code.new ≡ code.old ++ map encoded (frame_by_words bytes)) }
{
    if is_of_12_bits(bytes) {
        return put(code, &[addi(FRAME, FRAME, low_digit(bytes))]);
    }
    put(
        code,
        &[
            lui(SECOND, (high_digits(bytes) % 0x10_0000) as u32),
            addi(SECOND, SECOND, low_digit(bytes)),
            add(FRAME, FRAME, SECOND),
        ],
    )
}

// ---- jumps

// The bytes from one word of an image to another.
fn jump_bytes(from: u32, to: u32) -> JumpOffset
    requires from { from ≤ most_words }
    requires to { to ≤ most_words }
    ensures { result ≡ jump_offset from to }
{
    JumpOffset::of(4 * (to as i32 - from as i32))
}

/// A jump to a word of an image from another; a register gets the address of the word after the jump.
pub fn jump(rd: u8, from: u32, to: u32) -> Word
    requires rd { rd < 32 }
    requires from { from ≤ most_words }
    requires to { to ≤ most_words }
    ensures { result ≡ Word.Jal rd (jump_offset from to) }
{
    jal(rd, jump_bytes(from, to))
}

// ---- the environment

// The end of the run, by a fault's number or 0.
fn end_by(number_of_end: u16) -> [Word; 3]
    requires { number_of_end < 2048 }
    ensures { result ≡ fault_words number_of_end }
{
    [
        addi(ARGUMENT, ZERO, number(number_of_end)),
        addi(CALL, ZERO, number(Call::End.number())),
        Word::Ecall,
    ]
}

/// The end of the run by a fault.
pub fn fault(fault: Fault) -> [Word; 3]
    ensures { result ≡ fault_words (fault_number fault) }
{
    end_by(number_of_fault(fault))
}

/// The end of the program.
pub fn program_end() -> [Word; 3]
    ensures { result ≡ fault_words 0 }
{
    end_by(0)
}

/// An environment call.
pub fn environment_call(call: Call) -> [Word; 2]
    ensures { result ≡ environment_words (call_number call) }
{
    [addi(CALL, ZERO, number(call.number())), Word::Ecall]
}
