// The encoding of machine words: the base instruction formats of the RISC-V Unprivileged ISA manual.

ghost use Rattle.std.specs.Prelude.{◌≡◌, ◌+◌, ◌*◌, ◌/◌, ◌%◌, ◌^◌, ◌<◌, Some};
ghost use Rattle.rv64_words.specs.Fields.{IsRegister, IsImmediate, IsBranchOffset, IsJumpOffset, bits_12, bits_13, bits_21};
ghost use Rattle.rv64_words.specs.Encoding.{IsWord, condition_number, immediate_number, shift_number, shift_upper, register_number, register_upper, branch_low, branch_high, jump_upper, laid_out, laid_out_upper, encoded, decoded};

use crate::field::{BranchOffset, Immediate, JumpOffset, Register};
use crate::word::{Condition, ImmediateOperation, RegisterOperation, ShiftOperation, Word};

/// The 32 bits of the word, as the manual lays them out: those that `decode` gives the word back from. Takes no memory.
pub fn encode(word: Word) -> u32
    ensures bits { result ≡ encoded word }
    ensures decodes { decoded result ≡ Some word }
{
    bits_of(word)
}

// The bits, and that the fields are in their ranges.
fn bits_of(word: Word) -> u32
    ensures bits { result ≡ encoded word }
    ensures ranged { IsWord word }
{
    match word {
        Word::Lui { rd, upper } => lay_out_upper(0x37, rd, upper.bits()),
        Word::Jal { rd, offset } => lay_out_upper(0x6F, rd, jump_bits(offset)),
        Word::Jalr { rd, rs1, immediate } => with_immediate(0x67, 0, rd, rs1, immediate),
        Word::Branch {
            condition,
            rs1,
            rs2,
            offset,
        } => branch_word(condition, rs1, rs2, offset),
        Word::Ld { rd, rs1, immediate } => with_immediate(0x03, 3, rd, rs1, immediate),
        Word::Sd {
            rs1,
            rs2,
            immediate,
        } => store_word(rs1, rs2, immediate),
        Word::OpImm {
            operation,
            rd,
            rs1,
            immediate,
        } => with_immediate(0x13, number_of_immediate(operation), rd, rs1, immediate),
        Word::ShiftImm {
            operation,
            rd,
            rs1,
            shift,
        } => {
            let (number, upper) = numbers_of_shift(operation);
            lay_out(
                0x13,
                rd.number() as u32,
                number,
                rs1,
                shift.amount() as u32 + 64 * upper,
            )
        }
        Word::Op {
            operation,
            rd,
            rs1,
            rs2,
        } => {
            let (number, upper) = numbers_of_register(operation);
            lay_out(
                0x33,
                rd.number() as u32,
                number,
                rs1,
                rs2.number() as u32 + 32 * upper,
            )
        }
        Word::Ecall => 0x73,
    }
}

// ---- formats

// The fields of a word from its lowest bits up, `above` being the uppermost 12.
fn lay_out(opcode: u32, rd: u32, funct3: u32, rs1: Register, above: u32) -> u32
    requires opcode { opcode < 2 ^ 7 }
    requires rd { rd < 2 ^ 5 }
    requires funct3 { funct3 < 2 ^ 3 }
    requires above { above < 2 ^ 12 }
    ensures bits { result ≡ laid_out opcode rd funct3 rs1 above }
    ensures ranged { IsRegister rs1 }
{
    opcode + 128 * (rd + 32 * (funct3 + 8 * (rs1.number() as u32 + 32 * above)))
}

// The formats U and J: 20 bits above rd.
fn lay_out_upper(opcode: u32, rd: Register, upper: u32) -> u32
    requires opcode { opcode < 2 ^ 7 }
    requires upper { upper < 2 ^ 20 }
    ensures bits { result ≡ laid_out_upper opcode rd upper }
    ensures ranged { IsRegister rd }
{
    opcode + 128 * (rd.number() as u32 + 32 * upper)
}

// The format I.
fn with_immediate(
    opcode: u32,
    funct3: u32,
    rd: Register,
    rs1: Register,
    immediate: Immediate,
) -> u32
    requires opcode { opcode < 2 ^ 7 }
    requires funct3 { funct3 < 2 ^ 3 }
    ensures bits { result ≡ laid_out opcode rd funct3 rs1 (bits_12 immediate) }
    ensures ranged { IsRegister rd × IsRegister rs1 × IsImmediate immediate }
{
    lay_out(
        opcode,
        rd.number() as u32,
        funct3,
        rs1,
        immediate_bits(immediate),
    )
}

// A store, of the format S.
fn store_word(rs1: Register, rs2: Register, immediate: Immediate) -> u32
    ensures ranged { IsRegister rs1 × IsRegister rs2 × IsImmediate immediate }
    ensures bits { result ≡ laid_out 0x23 (bits_12 immediate % 2 ^ 5) 3 rs1 (rs2 + 2 ^ 5 * (bits_12 immediate / 2 ^ 5)) }
{
    let bits = immediate_bits(immediate);
    lay_out(
        0x23,
        bits % 32,
        3,
        rs1,
        rs2.number() as u32 + 32 * (bits / 32),
    )
}

// A branch, of the format B.
fn branch_word(condition: Condition, rs1: Register, rs2: Register, offset: BranchOffset) -> u32
    ensures ranged { IsRegister rs1 × IsRegister rs2 × IsBranchOffset offset }
    ensures bits { let n = bits_13 offset in result ≡ laid_out 0x63 (branch_low n) (condition_number condition) rs1 (rs2 + 2 ^ 5 * branch_high n) }
{
    let bits = branch_bits(offset);
    let low = bits / 2048 % 2 + 2 * (bits / 2 % 16);
    let high = bits / 32 % 64 + 64 * (bits / 4096);
    lay_out(
        0x63,
        low,
        number_of_condition(condition),
        rs1,
        rs2.number() as u32 + 32 * high,
    )
}

// ---- signed numbers in two's complement

fn immediate_bits(immediate: Immediate) -> u32
    ensures ranged { IsImmediate immediate }
    ensures value { result ≡ bits_12 immediate }
    ensures range { result < 2 ^ 12 }
{
    let value = immediate.value();
    let bits = if value < 0 { value + 4096 } else { value };
    bits as u32
}

fn branch_bits(offset: BranchOffset) -> u32
    ensures ranged { IsBranchOffset offset }
    ensures value { result ≡ bits_13 offset }
    ensures range { result < 2 ^ 13 }
{
    let bytes = offset.bytes();
    let bits = if bytes < 0 { bytes + 8192 } else { bytes };
    bits as u32
}

// The offset's bits in the order of the format J.
fn jump_bits(offset: JumpOffset) -> u32
    ensures ranged { IsJumpOffset offset }
    ensures value { result ≡ jump_upper (bits_21 offset) }
    ensures range { result < 2 ^ 20 }
{
    let bytes = offset.bytes();
    let bits = if bytes < 0 { bytes + 2097152 } else { bytes } as u32;
    bits / 4096 % 256
        + 256 * (bits / 2048 % 2)
        + 512 * (bits / 2 % 1024)
        + 524288 * (bits / 1048576)
}

// ---- operations as numbers

fn number_of_condition(condition: Condition) -> u32
    ensures value { result ≡ condition_number condition }
    ensures range { result < 2 ^ 3 }
{
    match condition {
        Condition::Eq => 0,
        Condition::Ne => 1,
        Condition::Lt => 4,
        Condition::Ge => 5,
        Condition::Ltu => 6,
        Condition::Geu => 7,
    }
}

fn number_of_immediate(operation: ImmediateOperation) -> u32
    ensures value { result ≡ immediate_number operation }
    ensures range { result < 2 ^ 3 }
{
    match operation {
        ImmediateOperation::Addi => 0,
        ImmediateOperation::Slti => 2,
        ImmediateOperation::Sltiu => 3,
        ImmediateOperation::Xori => 4,
        ImmediateOperation::Ori => 6,
        ImmediateOperation::Andi => 7,
    }
}

// funct3 and the upper six bits.
fn numbers_of_shift(operation: ShiftOperation) -> (u32, u32)
    ensures number { result.0 ≡ shift_number operation }
    ensures upper { result.1 ≡ shift_upper operation }
    ensures number_range { result.0 < 2 ^ 3 }
    ensures upper_range { result.1 < 2 ^ 6 }
{
    match operation {
        ShiftOperation::Slli => (1, 0),
        ShiftOperation::Srli => (5, 0),
        ShiftOperation::Srai => (5, 0x10),
    }
}

// funct3 and funct7.
fn numbers_of_register(operation: RegisterOperation) -> (u32, u32)
    ensures number { result.0 ≡ register_number operation }
    ensures upper { result.1 ≡ register_upper operation }
    ensures number_range { result.0 < 2 ^ 3 }
    ensures upper_range { result.1 < 2 ^ 7 }
{
    match operation {
        RegisterOperation::Add => (0, 0),
        RegisterOperation::Sll => (1, 0),
        RegisterOperation::Slt => (2, 0),
        RegisterOperation::Sltu => (3, 0),
        RegisterOperation::Xor => (4, 0),
        RegisterOperation::Srl => (5, 0),
        RegisterOperation::Or => (6, 0),
        RegisterOperation::And => (7, 0),
        RegisterOperation::Sub => (0, 0x20),
        RegisterOperation::Sra => (5, 0x20),
        RegisterOperation::Mul => (0, 1),
        RegisterOperation::Div => (4, 1),
    }
}
