// The words of the operations that compute, and those of cells.

ghost use Rattle.std.specs.Prelude.{◌≡◌, ◌∷◌, [], ◌++◌, ◌<◌, ◌≤◌, map, pos, OnOk};
ghost use Rattle.rv64_words_laws.specs.sequences.Operations.{unary_words, unary_takes_any, binary_words, binary_takes_any, unary_size, binary_size, int_to_char_words, division_words, pointer_words, same_words, not_greater_words, not_less_words, cell_words, load_cell_words, mark_cell_words, store_cell_words};
ghost use Rattle.rv64_words.specs.Encoding.{encoded};
ghost use Rattle.rv64_words.specs.Mnemonics as mnemonics;

use crate::assembly::{add, addi, branch, ld, lui, op, sd, slli, srai, srli, with_immediate};
use crate::registers::{ADDRESS, FIRST, SECOND, ZERO};
use crate::sequences::{fault, number, put};
use bril_tree::limits::Fault;
use bril_tree::operators::{BinaryOp, UnaryOp};
use bril_tree::sequence::Seq;
use rv64_words::field::Immediate;
use rv64_words::word::{Condition, ImmediateOperation, RegisterOperation, Word};
use std::alloc::AllocError;

// ---- sizes

/// How many words compute from one operand.
pub fn unary_size_of(operation: UnaryOp) -> u32
    ensures value { result ≡ unary_size operation }
    ensures few { result ≤ 8 }
{
    match operation {
        UnaryOp::Not => 1,
        UnaryOp::CharToInt => 0,
        UnaryOp::IntToChar => 8,
    }
}

/// How many words compute from two operands.
pub fn binary_size_of(operation: BinaryOp) -> u32
    ensures value { result ≡ binary_size operation }
    ensures few { result ≤ 14 }
{
    match operation {
        BinaryOp::Add | BinaryOp::Sub | BinaryOp::Mul => 1,
        BinaryOp::Div => 5,
        BinaryOp::Eq | BinaryOp::Ceq => 2,
        BinaryOp::Lt | BinaryOp::Clt => 1,
        BinaryOp::Gt | BinaryOp::Cgt => 1,
        BinaryOp::Le | BinaryOp::Cle => 2,
        BinaryOp::Ge | BinaryOp::Cge => 2,
        BinaryOp::And | BinaryOp::Or => 1,
        BinaryOp::PtrAdd => 14,
    }
}

// ---- registers

/// Whether an operation on one operand takes it from any register, and puts its result into any.
pub fn unary_takes_any_register(operation: UnaryOp) -> bool
    ensures { result ≡ unary_takes_any operation }
{
    match operation {
        UnaryOp::IntToChar => false,
        UnaryOp::Not | UnaryOp::CharToInt => true,
    }
}

/// Whether an operation on two operands takes them from any registers, and puts its result into any.
pub fn binary_takes_any_registers(operation: BinaryOp) -> bool
    ensures { result ≡ binary_takes_any operation }
{
    match operation {
        BinaryOp::PtrAdd => false,
        _ => true,
    }
}

// ---- one operand

// Register d becomes 1 where register a is 0, else 0.
fn negated(d: u8, a: u8) -> Word
    requires d { d < 32 }
    requires a { a < 32 }
    ensures { result ≡ mnemonics.sltiu d a (pos 1) }
{
    with_immediate(ImmediateOperation::Sltiu, d, a, number(1))
}

/// An operation on register a, into register d; those that take no other use register 5.
pub fn put_unary(code: &mut Seq<u32>, operation: UnaryOp, d: u8, a: u8) -> Result<(), AllocError>
    requires d { d < 32 }
    requires a { a < 32 }
    ensures { OnOk result (code.new ≡ code.old ++ map encoded (unary_words operation d a)) }
{
    match operation {
        UnaryOp::Not => put(code, &[negated(d, a)]),
        UnaryOp::CharToInt => Ok(()),
        UnaryOp::IntToChar => put_int_to_char(code),
    }
}

// The number has to be a scalar value of Unicode: below 0x110000, and its bits from bit 11 on not those of 0xD800.
fn put_int_to_char(code: &mut Seq<u32>) -> Result<(), AllocError>
    ensures { OnOk result (code.new ≡ code.old ++ map encoded int_to_char_words) }
{
    let tests = [
        lui(ADDRESS, 0x110),
        branch(Condition::Geu, FIRST, ADDRESS, 16),
        srli(ADDRESS, FIRST, 11),
        addi(ADDRESS, ADDRESS, Immediate::of(-27)),
        branch(Condition::Ne, ADDRESS, ZERO, 16),
    ];
    put(code, &tests)?;
    put(code, &fault(Fault::BadChar))
}

// ---- two operands

// One word of an operation.
fn computed(operation: RegisterOperation, d: u8, a: u8, b: u8) -> [Word; 1]
    requires d { d < 32 }
    requires a { a < 32 }
    requires b { b < 32 }
    ensures { result ≡ Word.Op operation d a b ∷ [] }
{
    [op(operation, d, a, b)]
}

// Whether one word gives 0, by register 5.
fn computed_not(operation: RegisterOperation, d: u8, a: u8, b: u8) -> [Word; 2]
    requires d { d < 32 }
    requires a { a < 32 }
    requires b { b < 32 }
    ensures { result ≡ Word.Op operation 5 a b ∷ mnemonics.sltiu d 5 (pos 1) ∷ [] }
{
    [op(operation, FIRST, a, b), negated(d, FIRST)]
}

/// An operation on registers a and b, into register d; those that take no others use registers 5 and 7.
pub fn put_binary(
    code: &mut Seq<u32>,
    operation: BinaryOp,
    d: u8,
    a: u8,
    b: u8,
) -> Result<(), AllocError>
    requires d { d < 32 }
    requires a { a < 32 }
    requires b { b < 32 }
    ensures { OnOk result (code.new ≡ code.old ++ map encoded (binary_words operation d a b)) }
{
    match operation {
        BinaryOp::Add => put(code, &computed(RegisterOperation::Add, d, a, b)),
        BinaryOp::Sub => put(code, &computed(RegisterOperation::Sub, d, a, b)),
        BinaryOp::Mul => put(code, &computed(RegisterOperation::Mul, d, a, b)),
        BinaryOp::Div => put_division(code, d, a, b),
        BinaryOp::Eq | BinaryOp::Ceq => {
            put(code, &computed_not(RegisterOperation::Sub, d, a, b))
        }
        BinaryOp::Lt | BinaryOp::Clt => put(code, &computed(RegisterOperation::Slt, d, a, b)),
        BinaryOp::Gt | BinaryOp::Cgt => put(code, &computed(RegisterOperation::Slt, d, b, a)),
        BinaryOp::Le | BinaryOp::Cle => {
            put(code, &computed_not(RegisterOperation::Slt, d, b, a))
        }
        BinaryOp::Ge | BinaryOp::Cge => {
            put(code, &computed_not(RegisterOperation::Slt, d, a, b))
        }
        BinaryOp::And => put(code, &computed(RegisterOperation::And, d, a, b)),
        BinaryOp::Or => put(code, &computed(RegisterOperation::Or, d, a, b)),
        BinaryOp::PtrAdd => put_pointer_sum(code),
    }
}

// The quotient, or a fault where the divisor is 0.
fn put_division(code: &mut Seq<u32>, d: u8, a: u8, b: u8) -> Result<(), AllocError>
    requires d { d < 32 }
    requires a { a < 32 }
    requires b { b < 32 }
    ensures { OnOk result (code.new ≡ code.old ++ map encoded (division_words d a b)) }
{
    put(code, &[branch(Condition::Ne, b, ZERO, 16)])?;
    put(code, &fault(Fault::DivZero))?;
    put(code, &computed(RegisterOperation::Div, d, a, b))
}

// The sum of the offset in register 5 and of register 7 into register 7, and over the fault where it has 32 bits.
fn pointer_offset() -> [Word; 6]
    ensures { result ≡ mnemonics.slli 6 5 32 ∷ mnemonics.srai 6 6 32 ∷ mnemonics.add 7 6 7
        ∷ mnemonics.slli 6 7 32 ∷ mnemonics.srai 6 6 32 ∷ mnemonics.beq 6 7 (pos 16) ∷ [] }
{
    [
        slli(ADDRESS, FIRST, 32),
        srai(ADDRESS, ADDRESS, 32),
        add(SECOND, ADDRESS, SECOND),
        slli(ADDRESS, SECOND, 32),
        srai(ADDRESS, ADDRESS, 32),
        branch(Condition::Eq, ADDRESS, SECOND, 16),
    ]
}

// The block of register 5 with the offset of register 7.
fn pointer_of_parts() -> [Word; 5]
    ensures { result ≡ mnemonics.srli 5 5 32 ∷ mnemonics.slli 5 5 32 ∷ mnemonics.slli 7 7 32
        ∷ mnemonics.srli 7 7 32 ∷ mnemonics.add 5 5 7 ∷ [] }
{
    [
        srli(FIRST, FIRST, 32),
        slli(FIRST, FIRST, 32),
        slli(SECOND, SECOND, 32),
        srli(SECOND, SECOND, 32),
        add(FIRST, FIRST, SECOND),
    ]
}

// A pointer, moved by a number of cells, or a fault where the offset leaves the signed range of 32 bits.
fn put_pointer_sum(code: &mut Seq<u32>) -> Result<(), AllocError>
    ensures { OnOk result (code.new ≡ code.old ++ map encoded pointer_words) }
{
    put(code, &pointer_offset())?;
    put(code, &fault(Fault::PtrRange))?;
    put(code, &pointer_of_parts())
}

// ---- cells

/// The address of the cell to which the pointer in register 5 points into register 7, or a fault.
pub fn put_cell(code: &mut Seq<u32>) -> Result<(), AllocError>
    ensures { OnOk result (code.new ≡ code.old ++ map encoded cell_words) }
{
    let size = [
        srli(ADDRESS, FIRST, 32),
        slli(ADDRESS, ADDRESS, 4),
        lui(SECOND, 0x20000),
        add(ADDRESS, ADDRESS, SECOND),
        slli(FIRST, FIRST, 32),
        srai(FIRST, FIRST, 32),
        ld(SECOND, ADDRESS, number(8)),
        branch(Condition::Ltu, FIRST, SECOND, 16),
    ];
    put(code, &size)?;
    put(code, &fault(Fault::Access))?;
    put(
        code,
        &[
            ld(ADDRESS, ADDRESS, number(0)),
            slli(FIRST, FIRST, 4),
            add(SECOND, ADDRESS, FIRST),
        ],
    )
}

/// What the cell at the address in register 7 holds into register d, or a fault.
pub fn put_load_cell(code: &mut Seq<u32>, d: u8) -> Result<(), AllocError>
    requires { d < 32 }
    ensures { OnOk result (code.new ≡ code.old ++ map encoded (load_cell_words d)) }
{
    put(
        code,
        &[
            ld(FIRST, SECOND, number(0)),
            branch(Condition::Ne, FIRST, ZERO, 16),
        ],
    )?;
    put(code, &fault(Fault::Uninit))?;
    put(code, &[ld(d, SECOND, number(8))])
}

/// The cell at the address in register 7 was stored.
pub fn put_mark_cell(code: &mut Seq<u32>) -> Result<(), AllocError>
    ensures { OnOk result (code.new ≡ code.old ++ map encoded mark_cell_words) }
{
    put(
        code,
        &[addi(FIRST, ZERO, number(1)), sd(SECOND, FIRST, number(0))],
    )
}

/// That cell gets register v.
pub fn put_store_cell(code: &mut Seq<u32>, v: u8) -> Result<(), AllocError>
    requires { v < 32 }
    ensures { OnOk result (code.new ≡ code.old ++ map encoded (store_cell_words v)) }
{
    put(code, &[sd(SECOND, v, number(8))])
}
