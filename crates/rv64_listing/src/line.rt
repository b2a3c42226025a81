// What a line tells. None of these functions takes memory.

ghost use Rattle.std.specs.Prelude.{◌≡◌};
ghost use Rattle.rv64_listing.specs.declared.form.Form.TheVariants as form;
ghost use Rattle.rv64_listing.specs.Reading.{bits_in, told, told_word, word_in};
ghost use Rattle.rv64_listing.specs.Tokens.{cut};

use crate::form::{Form, form_named};
use crate::operands::{at, long, short, three};
use crate::ranges::{bits, branch_offset, immediate, jump_offset, shift, upper};
use crate::tokens::{behind_blanks, is_end, run, space};
use rv64_words::encoding::encode;
use rv64_words::word::{Condition, ImmediateOperation, RegisterOperation, ShiftOperation, Word};

/// What a line tells: nothing, the 32 bits of a word, or what it may not.
#[derive(Clone, Copy, PartialEq, Eq, Debug, Drop)]
pub enum Told {
    Empty,
    Word(u32),
    Bad,
}

// What the line tells.
pub fn read_line(line: &[u8]) -> Told
    ensures { result ≡ told line.now }
{
    let rest = behind_blanks(line);
    if is_end(rest) {
        return Told::Empty;
    }
    match read_word(rest) {
        Some(bits) => Told::Word(bits),
        None => Told::Bad,
    }
}

// The bits of the word that the rest of a line tells.
fn read_word(rest: &[u8]) -> Option<u32>
    ensures { result ≡ told_word (cut rest.now) }
{
    let (name, rest) = run(rest)?;
    if name == b"word".as_slice() {
        return bits_behind(rest);
    }
    let form = form_named(name)?;
    let word = word_behind(form, rest)?;
    Some(encode(word))
}

// The bits that eight digits tell behind the name of such a line.
#[tactic(auto, unfolding(crate::specs::Reading::bits_in))]
fn bits_behind(rest: &[u8]) -> Option<u32>
    ensures { result ≡ bits_in (cut rest.now) }
{
    let rest = space(rest)?;
    let (text, rest) = run(rest)?;
    let bits = bits(text)?;
    if !is_end(rest) {
        return None;
    }
    Some(bits)
}

// The word of a form that the operands behind its mnemonic tell.
fn word_behind(form: Form, rest: &[u8]) -> Option<Word>
    ensures { result ≡ word_in form (cut rest.now) }
{
    match form {
        Form::Lui => lui(rest),
        Form::Jal => jal(rest),
        Form::Jalr => jalr(rest),
        Form::Branch(condition) => branch(condition, rest),
        Form::Ld => load(rest),
        Form::Sd => store(rest),
        Form::OpImm(operation) => op_imm(operation, rest),
        Form::ShiftImm(operation) => shift_imm(operation, rest),
        Form::Op(operation) => op(operation, rest),
        Form::Ecall => ecall(rest),
    }
}

// ---- by forms

fn lui(rest: &[u8]) -> Option<Word>
    ensures { result ≡ word_in form.Lui (cut rest.now) }
{
    let (rd, number) = short(rest)?;
    let upper = upper(number)?;
    Some(Word::Lui { rd, upper })
}

fn jal(rest: &[u8]) -> Option<Word>
    ensures { result ≡ word_in form.Jal (cut rest.now) }
{
    let (rd, number) = short(rest)?;
    let offset = jump_offset(number)?;
    Some(Word::Jal { rd, offset })
}

fn jalr(rest: &[u8]) -> Option<Word>
    ensures { result ≡ word_in form.Jalr (cut rest.now) }
{
    let (rd, rs1, number) = long(rest)?;
    let immediate = immediate(number)?;
    Some(Word::Jalr { rd, rs1, immediate })
}

fn branch(condition: Condition, rest: &[u8]) -> Option<Word>
    ensures { result ≡ word_in (form.Branch condition) (cut rest.now) }
{
    let (rs1, rs2, number) = long(rest)?;
    let offset = branch_offset(number)?;
    Some(Word::Branch {
        condition,
        rs1,
        rs2,
        offset,
    })
}

fn load(rest: &[u8]) -> Option<Word>
    ensures { result ≡ word_in form.Ld (cut rest.now) }
{
    let (rd, number, rs1) = at(rest)?;
    let immediate = immediate(number)?;
    Some(Word::Ld { rd, rs1, immediate })
}

fn store(rest: &[u8]) -> Option<Word>
    ensures { result ≡ word_in form.Sd (cut rest.now) }
{
    let (rs2, number, rs1) = at(rest)?;
    let immediate = immediate(number)?;
    Some(Word::Sd {
        rs1,
        rs2,
        immediate,
    })
}

fn op_imm(operation: ImmediateOperation, rest: &[u8]) -> Option<Word>
    ensures { result ≡ word_in (form.OpImm operation) (cut rest.now) }
{
    let (rd, rs1, number) = long(rest)?;
    let immediate = immediate(number)?;
    Some(Word::OpImm {
        operation,
        rd,
        rs1,
        immediate,
    })
}

fn shift_imm(operation: ShiftOperation, rest: &[u8]) -> Option<Word>
    ensures { result ≡ word_in (form.ShiftImm operation) (cut rest.now) }
{
    let (rd, rs1, number) = long(rest)?;
    let shift = shift(number)?;
    Some(Word::ShiftImm {
        operation,
        rd,
        rs1,
        shift,
    })
}

fn op(operation: RegisterOperation, rest: &[u8]) -> Option<Word>
    ensures { result ≡ word_in (form.Op operation) (cut rest.now) }
{
    let (rd, rs1, rs2) = three(rest)?;
    Some(Word::Op {
        operation,
        rd,
        rs1,
        rs2,
    })
}

fn ecall(rest: &[u8]) -> Option<Word>
    ensures { result ≡ word_in form.Ecall (cut rest.now) }
{
    if !is_end(rest) {
        return None;
    }
    Some(Word::Ecall)
}
