// Machine words.

use crate::field::{BranchOffset, Immediate, JumpOffset, Register, Shift, Upper};

/// When a branch goes to its target, by the signed or unsigned order of two registers.
#[derive(Clone, Copy, PartialEq, Eq, Debug, Drop)]
pub enum Condition {
    /// BEQ: they are equal.
    Eq,
    /// BNE: they differ.
    Ne,
    /// BLT: the first is less, as signed numbers.
    Lt,
    /// BGE: the first is no less, as signed numbers.
    Ge,
    /// BLTU: the first is less.
    Ltu,
    /// BGEU: the first is no less.
    Geu,
}

/// What is computed of a register and a sign-extended immediate.
#[derive(Clone, Copy, PartialEq, Eq, Debug, Drop)]
pub enum ImmediateOperation {
    /// ADDI: the sum, modulo 2^64.
    Addi,
    /// SLTI: 1 where the register is less, as signed numbers, else 0.
    Slti,
    /// SLTIU: 1 where the register is less, else 0.
    Sltiu,
    /// XORI: the bitwise exclusive or.
    Xori,
    /// ORI: the bitwise or.
    Ori,
    /// ANDI: the bitwise and.
    Andi,
}

/// How a register is shifted by a constant.
#[derive(Clone, Copy, PartialEq, Eq, Debug, Drop)]
pub enum ShiftOperation {
    /// SLLI: to the left.
    Slli,
    /// SRLI: to the right, with zeros from above.
    Srli,
    /// SRAI: to the right, with copies of the sign from above.
    Srai,
}

/// What is computed of two registers.
#[derive(Clone, Copy, PartialEq, Eq, Debug, Drop)]
pub enum RegisterOperation {
    /// ADD: the sum, modulo 2^64.
    Add,
    /// SLL: the first, shifted to the left by the low 6 bits of the second.
    Sll,
    /// SLT: 1 where the first is less, as signed numbers, else 0.
    Slt,
    /// SLTU: 1 where the first is less, else 0.
    Sltu,
    /// XOR: the bitwise exclusive or.
    Xor,
    /// SRL: the first, shifted to the right by the low 6 bits of the second, with zeros from above.
    Srl,
    /// OR: the bitwise or.
    Or,
    /// AND: the bitwise and.
    And,
    /// SUB: the difference, modulo 2^64.
    Sub,
    /// SRA: the first, shifted to the right by the low 6 bits of the second, with copies of the sign from above.
    Sra,
    /// MUL: the low 64 bits of the product.
    Mul,
    /// DIV: the signed quotient, rounded toward zero; -1 by zero; the least number by -1 is itself.
    Div,
}

/// A word of the RISC-V Unprivileged ISA: those of RV64I and its M extension that the machine has. The fields have the
/// manual's names: `rd` is written, `rs1` and `rs2` are read.
#[derive(Clone, Copy, PartialEq, Eq, Debug, Drop)]
pub enum Word {
    /// LUI: `rd` becomes `upper` times 4,096, its 32 bits sign-extended.
    Lui {
        rd: Register,
        upper: Upper,
    },
    /// JAL: `rd` becomes the address of the next word, and the pc moves by the offset.
    Jal {
        rd: Register,
        offset: JumpOffset,
    },
    /// JALR: `rd` becomes the address of the next word, and the pc the sum of `rs1`, read before, and the immediate,
    /// with bit 0 cleared.
    Jalr {
        rd: Register,
        rs1: Register,
        immediate: Immediate,
    },
    /// The six branches: the pc moves by the offset where the condition holds of `rs1` and `rs2`.
    Branch {
        condition: Condition,
        rs1: Register,
        rs2: Register,
        offset: BranchOffset,
    },
    /// LD: `rd` becomes the 64-bit word in memory at `rs1` plus the immediate.
    Ld {
        rd: Register,
        rs1: Register,
        immediate: Immediate,
    },
    /// SD: the 64-bit word in memory at `rs1` plus the immediate becomes `rs2`.
    Sd {
        rs1: Register,
        rs2: Register,
        immediate: Immediate,
    },
    /// The operations with an immediate: `rd` becomes what is computed of `rs1` and the immediate.
    OpImm {
        operation: ImmediateOperation,
        rd: Register,
        rs1: Register,
        immediate: Immediate,
    },
    /// The shifts by a constant: `rd` becomes `rs1`, shifted.
    ShiftImm {
        operation: ShiftOperation,
        rd: Register,
        rs1: Register,
        shift: Shift,
    },
    /// The operations on registers: `rd` becomes what is computed of `rs1` and `rs2`.
    Op {
        operation: RegisterOperation,
        rd: Register,
        rs1: Register,
        rs2: Register,
    },
    /// ECALL: the environment call whose number is in register 17, with its argument in register 10.
    Ecall,
}
