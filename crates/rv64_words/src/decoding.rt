// The word of 32 bits: the listings of RV64I and RV64M in the RISC-V Unprivileged ISA manual.

ghost use Rattle.std.specs.Prelude.{◌≡◌, ◌+◌, ◌*◌, ◌/◌, ◌%◌, ◌^◌, ◌<◌, Some, IfSome};
ghost use Rattle.rv64_words.specs.Fields.{signed_12, signed_13, signed_21};
ghost use Rattle.rv64_words.specs.Encoding.{condition_of, immediate_of, left_shift_of, right_shift_of, base_operation_of, other_operation_of, product_operation_of, register_of, rd_of, funct3_of, rs1_of, rs2_of, upper_of, above_of, funct7_of, branch_bits, jump_bits, op_imm_of, encoded, decoded};

use crate::field::{BranchOffset, Immediate, JumpOffset, Register, Shift, Upper};
use crate::word::{Condition, ImmediateOperation, RegisterOperation, ShiftOperation, Word};

/// The word whose 32 bits these are; `None` where no word has them. Takes no memory.
pub fn decode(bits: u32) -> Option<Word>
    ensures value { result ≡ decoded bits }
    ensures encodes { IfSome result (λ word. encoded word ≡ bits) }
{
    let funct3 = bits / 4096 % 8;
    match bits % 128 {
        0x37 => Some(Word::Lui {
            rd: rd(bits),
            upper: Upper::of(bits / 4096),
        }),
        0x6F => Some(Word::Jal {
            rd: rd(bits),
            offset: jump_offset(bits / 4096),
        }),
        0x67 if funct3 == 0 => Some(Word::Jalr {
            rd: rd(bits),
            rs1: rs1(bits),
            immediate: immediate_at(bits),
        }),
        0x63 => Some(Word::Branch {
            condition: condition_numbered(funct3)?,
            rs1: rs1(bits),
            rs2: rs2(bits),
            offset: branch_offset(bits),
        }),
        0x03 if funct3 == 3 => Some(Word::Ld {
            rd: rd(bits),
            rs1: rs1(bits),
            immediate: immediate_at(bits),
        }),
        0x23 if funct3 == 3 => Some(Word::Sd {
            rs1: rs1(bits),
            rs2: rs2(bits),
            immediate: store_immediate(bits),
        }),
        0x13 => op_imm(bits),
        0x33 => Some(Word::Op {
            operation: register_operation(funct3, bits / 1048576 / 32)?,
            rd: rd(bits),
            rs1: rs1(bits),
            rs2: rs2(bits),
        }),
        _ => {
            if bits == 0x73 {
                Some(Word::Ecall)
            } else {
                None
            }
        }
    }
}

// The words of the opcode 0x13: operations with an immediate, and shifts by a constant.
fn op_imm(bits: u32) -> Option<Word>
    ensures { result ≡ op_imm_of (funct3_of bits) bits }
{
    let upper = bits / 67108864;
    let funct3 = bits / 4096 % 8;
    if funct3 == 1 || funct3 == 5 {
        let operation = if funct3 == 1 {
            left_shift(upper)?
        } else {
            right_shift(upper)?
        };
        return Some(Word::ShiftImm {
            operation,
            rd: rd(bits),
            rs1: rs1(bits),
            shift: Shift::of((bits / 1048576 % 64) as u8),
        });
    }
    Some(Word::OpImm {
        operation: immediate_operation(funct3)?,
        rd: rd(bits),
        rs1: rs1(bits),
        immediate: immediate_at(bits),
    })
}

// ---- fields

fn rd(bits: u32) -> Register
    ensures { result ≡ rd_of bits }
{
    Register::of((bits / 128 % 32) as u8)
}

fn rs1(bits: u32) -> Register
    ensures { result ≡ rs1_of bits }
{
    Register::of((bits / 32768 % 32) as u8)
}

fn rs2(bits: u32) -> Register
    ensures { result ≡ rs2_of bits }
{
    Register::of((bits / 1048576 % 32) as u8)
}

// The immediate of these 12 bits.
fn immediate_of_bits(bits: u32) -> Immediate
    requires { bits < 2 ^ 12 }
    ensures { result ≡ signed_12 bits }
{
    let value = bits as i16;
    Immediate::of(if value < 2048 { value } else { value - 4096 })
}

// The immediate of the format I.
fn immediate_at(bits: u32) -> Immediate
    ensures { result ≡ signed_12 (above_of bits) }
{
    immediate_of_bits(bits / 1048576)
}

// The immediate of the format S.
fn store_immediate(bits: u32) -> Immediate
    ensures { result ≡ signed_12 (rd_of bits + 2 ^ 5 * funct7_of bits) }
{
    immediate_of_bits(bits / 128 % 32 + 32 * (bits / 33554432))
}

// The offset of the format B.
fn branch_offset(bits: u32) -> BranchOffset
    ensures { result ≡ signed_13 (branch_bits (rd_of bits) (funct7_of bits)) }
{
    let low = bits / 128 % 32;
    let high = bits / 33554432;
    let offset = 2 * (low / 2) + 32 * (high % 64) + 2048 * (low % 2) + 4096 * (high / 64);
    let bytes = offset as i16;
    BranchOffset::of(if bytes < 4096 { bytes } else { bytes - 8192 })
}

// The offset of the format J, from its 20 bits.
fn jump_offset(upper: u32) -> JumpOffset
    requires { upper < 2 ^ 20 }
    ensures { result ≡ signed_21 (jump_bits upper) }
{
    let offset = 2 * (upper / 512 % 1024)
        + 2048 * (upper / 256 % 2)
        + 4096 * (upper % 256)
        + 1048576 * (upper / 524288);
    let bytes = offset as i32;
    JumpOffset::of(if bytes < 1048576 {
        bytes
    } else {
        bytes - 2097152
    })
}

// ---- operations of numbers

fn condition_numbered(funct3: u32) -> Option<Condition>
    ensures { result ≡ condition_of funct3 }
{
    match funct3 {
        0 => Some(Condition::Eq),
        1 => Some(Condition::Ne),
        4 => Some(Condition::Lt),
        5 => Some(Condition::Ge),
        6 => Some(Condition::Ltu),
        7 => Some(Condition::Geu),
        _ => None,
    }
}

fn immediate_operation(funct3: u32) -> Option<ImmediateOperation>
    ensures { result ≡ immediate_of funct3 }
{
    match funct3 {
        0 => Some(ImmediateOperation::Addi),
        2 => Some(ImmediateOperation::Slti),
        3 => Some(ImmediateOperation::Sltiu),
        4 => Some(ImmediateOperation::Xori),
        6 => Some(ImmediateOperation::Ori),
        7 => Some(ImmediateOperation::Andi),
        _ => None,
    }
}

fn left_shift(upper: u32) -> Option<ShiftOperation>
    ensures { result ≡ left_shift_of upper }
{
    if upper == 0 {
        Some(ShiftOperation::Slli)
    } else {
        None
    }
}

fn right_shift(upper: u32) -> Option<ShiftOperation>
    ensures { result ≡ right_shift_of upper }
{
    match upper {
        0 => Some(ShiftOperation::Srli),
        0x10 => Some(ShiftOperation::Srai),
        _ => None,
    }
}

fn register_operation(funct3: u32, funct7: u32) -> Option<RegisterOperation>
    ensures { result ≡ register_of funct3 funct7 }
{
    match funct7 {
        0 => base_operation(funct3),
        0x20 => other_operation(funct3),
        1 => product_operation(funct3),
        _ => None,
    }
}

fn base_operation(funct3: u32) -> Option<RegisterOperation>
    ensures { result ≡ base_operation_of funct3 }
{
    match funct3 {
        0 => Some(RegisterOperation::Add),
        1 => Some(RegisterOperation::Sll),
        2 => Some(RegisterOperation::Slt),
        3 => Some(RegisterOperation::Sltu),
        4 => Some(RegisterOperation::Xor),
        5 => Some(RegisterOperation::Srl),
        6 => Some(RegisterOperation::Or),
        7 => Some(RegisterOperation::And),
        _ => None,
    }
}

fn other_operation(funct3: u32) -> Option<RegisterOperation>
    ensures { result ≡ other_operation_of funct3 }
{
    match funct3 {
        0 => Some(RegisterOperation::Sub),
        5 => Some(RegisterOperation::Sra),
        _ => None,
    }
}

fn product_operation(funct3: u32) -> Option<RegisterOperation>
    ensures { result ≡ product_operation_of funct3 }
{
    match funct3 {
        0 => Some(RegisterOperation::Mul),
        4 => Some(RegisterOperation::Div),
        _ => None,
    }
}
