// What homes have, into registers and into words of the frame, and back.

ghost use Rattle.std.specs.Prelude.{◌≡◌, ◌^◌, ◌<◌, ◌≤◌, ◌++◌, map, OnOk};
ghost use Rattle.rv64_emit_laws.specs.layout.Fits.{IsReached};
ghost use Rattle.rv64_emit.specs.SlotMoves.{one_size_by, one_words_by};
ghost use Rattle.rv64_words_laws.specs.sequences.Moves as moves;
ghost use Rattle.rv64_words_laws.specs.sequences.Sequences.{load_words, store_words};
ghost use Rattle.rv64_words.specs.Encoding.{encoded};

use crate::assembly::srli;
use crate::registers::FIRST;
use crate::sequences::{load_size_of, put, put_load, put_store, store_size_of};
use bril_tree::home::Home;
use bril_tree::sequence::Seq;
use std::alloc::AllocError;

// ---- a home and a register

/// How many words bring what a home has into a register.
pub fn fetch_size_of(home: Home) -> u32
    ensures value { result ≡ moves.fetch_size home }
    ensures few { result ≤ 3 }
{
    match home {
        Home::Reg(_) => 1,
        Home::Frame(word) => load_size_of(word as u64),
    }
}

/// What a home has into a register.
pub fn put_fetch(code: &mut Seq<u32>, rd: u8, home: Home) -> Result<(), AllocError>
    requires rd { rd < 32 }
    requires home { IsReached home }
    ensures { OnOk result (code.new ≡ code.old ++ map encoded (moves.fetch_words rd home)) }
{
    match home {
        Home::Reg(own) => put(code, &[srli(rd, own, 0)]),
        Home::Frame(word) => put_load(code, rd, word as u64),
    }
}

/// How many words bring a register into a home.
pub fn fill_size_of(home: Home) -> u32
    ensures value { result ≡ moves.fill_size home }
    ensures few { result ≤ 3 }
{
    match home {
        Home::Reg(_) => 1,
        Home::Frame(word) => store_size_of(word as u64),
    }
}

/// A register into a home.
pub fn put_fill(code: &mut Seq<u32>, rs: u8, home: Home) -> Result<(), AllocError>
    requires rs { rs < 32 }
    requires home { IsReached home }
    ensures { OnOk result (code.new ≡ code.old ++ map encoded (moves.fill_words rs home)) }
{
    match home {
        Home::Reg(own) => put(code, &[srli(own, rs, 0)]),
        Home::Frame(word) => put_store(code, rs, word as u64),
    }
}

// ---- where words find operands, and put what they make

/// The register in which words find what a home has, or put what it gets: the home itself, or the given one where the home is
/// in the frame.
pub fn register_for(register: u8, home: Home) -> u8
    requires register { register < 32 }
    requires home { IsReached home }
    ensures value { result ≡ moves.register_for register home }
    ensures few { result < 32 }
{
    match home {
        Home::Reg(own) => own,
        Home::Frame(_) => register,
    }
}

/// How many words bring what a home has into that register.
pub fn source_size_of(home: Home) -> u32
    ensures value { result ≡ moves.source_size home }
    ensures few { result ≤ 3 }
{
    match home {
        Home::Reg(_) => 0,
        Home::Frame(word) => load_size_of(word as u64),
    }
}

/// What a home has into that register.
pub fn put_source(code: &mut Seq<u32>, register: u8, home: Home) -> Result<(), AllocError>
    requires register { register < 32 }
    requires home { IsReached home }
    ensures { OnOk result (code.new ≡ code.old ++ map encoded (moves.source_words register home)) }
{
    match home {
        Home::Reg(_) => Ok(()),
        Home::Frame(word) => put_load(code, register, word as u64),
    }
}

/// How many words bring what that register has into a home.
pub fn target_size_of(home: Home) -> u32
    ensures value { result ≡ moves.target_size home }
    ensures few { result ≤ 3 }
{
    match home {
        Home::Reg(_) => 0,
        Home::Frame(word) => store_size_of(word as u64),
    }
}

/// What that register has into a home.
pub fn put_target(code: &mut Seq<u32>, register: u8, home: Home) -> Result<(), AllocError>
    requires register { register < 32 }
    requires home { IsReached home }
    ensures { OnOk result (code.new ≡ code.old ++ map encoded (moves.target_words register home)) }
{
    match home {
        Home::Reg(_) => Ok(()),
        Home::Frame(word) => put_store(code, register, word as u64),
    }
}

/// How many words bring what one home has into another.
pub fn copy_size_of(dest: Home, from: Home) -> u32
    ensures value { result ≡ moves.copy_size dest from }
    ensures few { result ≤ 6 }
{
    match from {
        Home::Reg(_) => fill_size_of(dest),
        Home::Frame(word) => load_size_of(word as u64) + target_size_of(dest),
    }
}

/// What one home has into another.
#[tactic(auto, using(crate::proofs::Appending::put_then))]
pub fn put_copy(code: &mut Seq<u32>, dest: Home, from: Home) -> Result<(), AllocError>
    requires dest { IsReached dest }
    requires from { IsReached from }
    ensures { OnOk result (code.new ≡ code.old ++ map encoded (moves.copy_words dest from)) }
{
    match from {
        Home::Reg(own) => put_fill(code, own, dest),
        Home::Frame(word) => {
            put_load(code, register_for(FIRST, dest), word as u64)?;
            put_target(code, FIRST, dest)
        }
    }
}

// ---- operands and results of operations, which take any registers or some alone

/// The register in which an operation finds an operand, or puts its result.
pub fn operand_register(any: bool, register: u8, home: Home) -> u8
    requires register { register < 32 }
    requires home { IsReached home }
    ensures value { result ≡ moves.operand_register any register home }
    ensures few { result < 32 }
{
    match any {
        true => register_for(register, home),
        false => register,
    }
}

/// How many words bring what a home has into that register.
pub fn operand_size_of(any: bool, home: Home) -> u32
    ensures value { result ≡ moves.operand_size any home }
    ensures few { result ≤ 3 }
{
    match any {
        true => source_size_of(home),
        false => fetch_size_of(home),
    }
}

/// What a home has into that register.
pub fn put_operand(
    code: &mut Seq<u32>,
    any: bool,
    register: u8,
    home: Home,
) -> Result<(), AllocError>
    requires register { register < 32 }
    requires home { IsReached home }
    ensures { OnOk result (code.new ≡ code.old ++ map encoded (moves.operand_words any register home)) }
{
    match any {
        true => put_source(code, register, home),
        false => put_fetch(code, register, home),
    }
}

/// How many words bring an operation's result into a home.
pub fn result_size_of(any: bool, home: Home) -> u32
    ensures value { result ≡ moves.result_size any home }
    ensures few { result ≤ 3 }
{
    match any {
        true => target_size_of(home),
        false => fill_size_of(home),
    }
}

/// An operation's result into a home.
pub fn put_result(code: &mut Seq<u32>, any: bool, home: Home) -> Result<(), AllocError>
    requires { IsReached home }
    ensures { OnOk result (code.new ≡ code.old ++ map encoded (moves.result_words any home)) }
{
    match any {
        true => put_target(code, FIRST, home),
        false => put_fill(code, FIRST, home),
    }
}

// ---- homes and words of the frame

/// Which way: what a home has into a word of the frame, or a word of the frame into a home.
#[derive(Clone, Copy, Drop)]
pub enum Transfer {
    Save,
    Restore,
}

/// How many words bring what a home has into a word of the frame, or back.
pub fn transfer_size_of(transfer: Transfer, home: Home, word: u64) -> u32
    ensures value { result ≡ one_size_by transfer home word }
    ensures few { result ≤ 6 }
{
    match (transfer, home) {
        (Transfer::Save, Home::Reg(_)) => store_size_of(word),
        (Transfer::Restore, Home::Reg(_)) => load_size_of(word),
        (Transfer::Save, Home::Frame(own)) => load_size_of(own as u64) + store_size_of(word),
        (Transfer::Restore, Home::Frame(own)) => load_size_of(word) + store_size_of(own as u64),
    }
}

// A word of the frame into another one, by register 5.
#[tactic(auto, using(crate::proofs::Appending::put_then))]
fn put_word(code: &mut Seq<u32>, from: u64, to: u64) -> Result<(), AllocError>
    requires from { from < 2 ^ 28 }
    requires to { to < 2 ^ 28 }
    ensures { OnOk result (code.new ≡ code.old ++ map encoded (load_words 5 from ++ store_words 5 to)) }
{
    put_load(code, FIRST, from)?;
    put_store(code, FIRST, to)
}

/// What a home has into a word of the frame, or back.
pub fn put_transfer(
    code: &mut Seq<u32>,
    transfer: Transfer,
    home: Home,
    word: u64,
) -> Result<(), AllocError>
    requires home { IsReached home }
    requires word { word < 2 ^ 28 }
    ensures { OnOk result (code.new ≡ code.old ++ map encoded (one_words_by transfer home word)) }
{
    match (transfer, home) {
        (Transfer::Save, Home::Reg(register)) => put_store(code, register, word),
        (Transfer::Restore, Home::Reg(register)) => put_load(code, register, word),
        (Transfer::Save, Home::Frame(own)) => put_word(code, own as u64, word),
        (Transfer::Restore, Home::Frame(own)) => put_word(code, word, own as u64),
    }
}
