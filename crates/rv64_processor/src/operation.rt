// What words compute.

ghost use Rattle.std.specs.Prelude.{◌≡◌, ◌*◌, ◌^◌, ◌<◌};
ghost use Rattle.std.specs.Int.{w64, cast_unsigned};
ghost use Rattle.rv64_words.specs.Arithmetic.{extended_32, less_signed, shifted_right_signed, divided, holds, with_immediate, shifted, computed};

use rv64_words::field::{Immediate, Upper};
use rv64_words::word::{Condition, ImmediateOperation, RegisterOperation, ShiftOperation};

/// The immediate, sign-extended to 64 bits.
#[inline(always)]
pub fn extended(immediate: Immediate) -> u64
    ensures { result ≡ cast_unsigned w64 immediate }
{
    (immediate.value() as i64).cast_unsigned()
}

/// The upper bits of a word of 32 bits, sign-extended to 64.
#[inline(always)]
pub fn extended_upper(upper: Upper) -> u64
    ensures { result ≡ extended_32 (upper * 4096) }
{
    ((upper.bits() << 12).cast_signed() as i64).cast_unsigned()
}

#[inline(always)]
fn is_less_signed(a: u64, b: u64) -> bool
    ensures { result ≡ less_signed a b }
{
    a.cast_signed() < b.cast_signed()
}

// Shifted to the right with copies of the sign from above.
#[inline(always)]
fn shift_right_signed(a: u64, amount: u8) -> u64
    requires { amount < 64 }
    ensures { result ≡ shifted_right_signed a amount }
{
    if a < 0x8000_0000_0000_0000 {
        a >> amount
    } else {
        u64::MAX - ((u64::MAX - a) >> amount)
    }
}

// The quotient of signed numbers, rounded toward zero: by zero all bits are set, and -2^63 by -1 is -2^63.
fn divide(a: u64, b: u64) -> u64
    ensures { result ≡ divided a b }
{
    if b == 0 {
        return u64::MAX;
    }
    a.cast_signed()
        .wrapping_div(b.cast_signed())
        .cast_unsigned()
}

/// Whether the condition holds of two numbers.
#[inline(always)]
pub fn is_met(condition: Condition, a: u64, b: u64) -> bool
    ensures { result ≡ holds condition a b }
{
    match condition {
        Condition::Eq => a == b,
        Condition::Ne => a != b,
        Condition::Lt => is_less_signed(a, b),
        Condition::Ge => !is_less_signed(a, b),
        Condition::Ltu => a < b,
        Condition::Geu => a >= b,
    }
}

/// What is computed of a register and a sign-extended immediate.
#[inline(always)]
pub fn compute_immediate(operation: ImmediateOperation, a: u64, b: u64) -> u64
    ensures { result ≡ with_immediate operation a b }
{
    match operation {
        ImmediateOperation::Addi => a.wrapping_add(b),
        ImmediateOperation::Slti => u64::from(is_less_signed(a, b)),
        ImmediateOperation::Sltiu => u64::from(a < b),
        ImmediateOperation::Xori => a ^ b,
        ImmediateOperation::Ori => a | b,
        ImmediateOperation::Andi => a & b,
    }
}

/// A register, shifted by a constant.
#[inline(always)]
pub fn shift_by(operation: ShiftOperation, a: u64, amount: u8) -> u64
    requires { amount < 64 }
    ensures { result ≡ shifted operation a amount }
{
    match operation {
        ShiftOperation::Slli => a << amount,
        ShiftOperation::Srli => a >> amount,
        ShiftOperation::Srai => shift_right_signed(a, amount),
    }
}

/// What is computed of two registers.
#[inline(always)]
pub fn compute(operation: RegisterOperation, a: u64, b: u64) -> u64
    ensures { result ≡ computed operation a b }
{
    match operation {
        RegisterOperation::Add => a.wrapping_add(b),
        RegisterOperation::Sll => a << (b % 64) as u8,
        RegisterOperation::Slt => u64::from(is_less_signed(a, b)),
        RegisterOperation::Sltu => u64::from(a < b),
        RegisterOperation::Xor => a ^ b,
        RegisterOperation::Srl => a >> (b % 64) as u8,
        RegisterOperation::Or => a | b,
        RegisterOperation::And => a & b,
        RegisterOperation::Sub => a.wrapping_sub(b),
        RegisterOperation::Sra => shift_right_signed(a, (b % 64) as u8),
        RegisterOperation::Mul => a.wrapping_mul(b),
        RegisterOperation::Div => divide(a, b),
    }
}
