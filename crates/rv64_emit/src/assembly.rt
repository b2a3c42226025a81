// Words by the manual's mnemonics, with registers by their numbers.

ghost use Rattle.std.specs.Prelude.{◌≡◌, ◌%◌, ◌^◌, ◌<◌, ◌≤ℤ◌, ◌<ℤ◌, pos, neg_ℤ};
ghost use Rattle.rv64_words.specs.Fields.{bits_13};
ghost use Rattle.rv64_words.specs.Mnemonics as mnemonics;

use rv64_words::field::{BranchOffset, Immediate, JumpOffset, Register, Shift, Upper};
use rv64_words::word::{Condition, ImmediateOperation, RegisterOperation, ShiftOperation, Word};

// ---- constants and jumps

pub fn lui(rd: u8, upper: u32) -> Word
    requires rd { rd < 32 }
    requires upper { upper < 2 ^ 20 }
    ensures { result ≡ Word.Lui rd upper }
{
    Word::Lui {
        rd: Register::of(rd),
        upper: Upper::of(upper),
    }
}

pub fn jal(rd: u8, offset: JumpOffset) -> Word
    requires { rd < 32 }
    ensures { result ≡ Word.Jal rd offset }
{
    Word::Jal {
        rd: Register::of(rd),
        offset,
    }
}

pub fn jalr(rd: u8, rs1: u8, immediate: i16) -> Word
    requires rd { rd < 32 }
    requires rs1 { rs1 < 32 }
    requires low { neg_ℤ (pos 2048) ≤ℤ immediate }
    requires high { immediate <ℤ pos 2048 }
    ensures { result ≡ Word.Jalr rd rs1 immediate }
{
    Word::Jalr {
        rd: Register::of(rd),
        rs1: Register::of(rs1),
        immediate: Immediate::of(immediate),
    }
}

// ---- branches

pub fn branch(condition: Condition, rs1: u8, rs2: u8, bytes: i16) -> Word
    requires rs1 { rs1 < 32 }
    requires rs2 { rs2 < 32 }
    requires low { neg_ℤ (pos 4096) ≤ℤ bytes }
    requires high { bytes <ℤ pos 4096 }
    requires even { bits_13 bytes % 2 ≡ 0 }
    ensures { result ≡ Word.Branch condition rs1 rs2 bytes }
{
    Word::Branch {
        condition,
        rs1: Register::of(rs1),
        rs2: Register::of(rs2),
        offset: BranchOffset::of(bytes),
    }
}

// ---- memory

pub fn ld(rd: u8, rs1: u8, immediate: Immediate) -> Word
    requires rd { rd < 32 }
    requires rs1 { rs1 < 32 }
    ensures { result ≡ Word.Ld rd rs1 immediate }
{
    Word::Ld {
        rd: Register::of(rd),
        rs1: Register::of(rs1),
        immediate,
    }
}

pub fn sd(rs1: u8, rs2: u8, immediate: Immediate) -> Word
    requires rs1 { rs1 < 32 }
    requires rs2 { rs2 < 32 }
    ensures { result ≡ Word.Sd rs1 rs2 immediate }
{
    Word::Sd {
        rs1: Register::of(rs1),
        rs2: Register::of(rs2),
        immediate,
    }
}

// ---- operations

pub fn with_immediate(operation: ImmediateOperation, rd: u8, rs1: u8, immediate: Immediate) -> Word
    requires rd { rd < 32 }
    requires rs1 { rs1 < 32 }
    ensures { result ≡ Word.OpImm operation rd rs1 immediate }
{
    Word::OpImm {
        operation,
        rd: Register::of(rd),
        rs1: Register::of(rs1),
        immediate,
    }
}

pub fn addi(rd: u8, rs1: u8, immediate: Immediate) -> Word
    requires rd { rd < 32 }
    requires rs1 { rs1 < 32 }
    ensures { result ≡ mnemonics.addi rd rs1 immediate }
{
    with_immediate(ImmediateOperation::Addi, rd, rs1, immediate)
}

pub fn shifted(operation: ShiftOperation, rd: u8, rs1: u8, amount: u8) -> Word
    requires rd { rd < 32 }
    requires rs1 { rs1 < 32 }
    requires amount { amount < 64 }
    ensures { result ≡ Word.ShiftImm operation rd rs1 amount }
{
    Word::ShiftImm {
        operation,
        rd: Register::of(rd),
        rs1: Register::of(rs1),
        shift: Shift::of(amount),
    }
}

pub fn slli(rd: u8, rs1: u8, amount: u8) -> Word
    requires rd { rd < 32 }
    requires rs1 { rs1 < 32 }
    requires amount { amount < 64 }
    ensures { result ≡ mnemonics.slli rd rs1 amount }
{
    shifted(ShiftOperation::Slli, rd, rs1, amount)
}

pub fn srli(rd: u8, rs1: u8, amount: u8) -> Word
    requires rd { rd < 32 }
    requires rs1 { rs1 < 32 }
    requires amount { amount < 64 }
    ensures { result ≡ mnemonics.srli rd rs1 amount }
{
    shifted(ShiftOperation::Srli, rd, rs1, amount)
}

pub fn srai(rd: u8, rs1: u8, amount: u8) -> Word
    requires rd { rd < 32 }
    requires rs1 { rs1 < 32 }
    requires amount { amount < 64 }
    ensures { result ≡ mnemonics.srai rd rs1 amount }
{
    shifted(ShiftOperation::Srai, rd, rs1, amount)
}

pub fn op(operation: RegisterOperation, rd: u8, rs1: u8, rs2: u8) -> Word
    requires rd { rd < 32 }
    requires rs1 { rs1 < 32 }
    requires rs2 { rs2 < 32 }
    ensures { result ≡ Word.Op operation rd rs1 rs2 }
{
    Word::Op {
        operation,
        rd: Register::of(rd),
        rs1: Register::of(rs1),
        rs2: Register::of(rs2),
    }
}

pub fn add(rd: u8, rs1: u8, rs2: u8) -> Word
    requires rd { rd < 32 }
    requires rs1 { rs1 < 32 }
    requires rs2 { rs2 < 32 }
    ensures { result ≡ mnemonics.add rd rs1 rs2 }
{
    op(RegisterOperation::Add, rd, rs1, rs2)
}
