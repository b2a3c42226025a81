// The fields of machine words, each in its range.

ghost use Rattle.std.specs.Prelude.{◌≡◌, ◌%◌, ◌<◌, ◌^◌, ◌≤ℤ◌, ◌<ℤ◌, pos, neg_ℤ};
ghost use Rattle.rv64_words.specs.Fields.{bits_13, bits_21};

use std::marker::Model;

/// One of the registers x0 to x31.
#[derive(Clone, Copy, PartialEq, Eq, Debug, Drop)]
pub struct Register {
    number: u8,
}

impl Model for Register {
    ghost use Rattle.std.specs.Prelude.{ℕ, ◌<◌};

    ghost Value = { ℕ };

    ghost view = { λ r. r.number };

    ghost invariant = { λ r. r.number < 32 };

    ghost inverse = { λ n. record { number = n } };
}

impl Register {
    /// The register of this number.
    pub const fn of(number: u8) -> Register
        requires { number < 32 }
        ensures { result ≡ number }
    {
        Register { number }
    }

    /// Its number, 0 to 31.
    pub fn number(self) -> u8
        ensures value { result ≡ self }
        ensures range { result < 32 }
    {
        self.number
    }
}

/// A signed number of 12 bits, -2,048 to 2,047.
#[derive(Clone, Copy, PartialEq, Eq, Debug, Drop)]
pub struct Immediate {
    value: i16,
}

impl Model for Immediate {
    ghost use Rattle.std.specs.Prelude.{ℤ, pos, neg_ℤ, ◌≤ℤ◌, ◌<ℤ◌};

    ghost Value = { ℤ };

    ghost view = { λ i. i.value };

    ghost invariant = { λ i. (neg_ℤ (pos 2048) ≤ℤ i.value) × (i.value <ℤ pos 2048) };

    ghost inverse = { λ z. record { value = z } };
}

impl Immediate {
    /// The immediate of this number.
    pub const fn of(value: i16) -> Immediate
        requires low { neg_ℤ (pos 2048) ≤ℤ value }
        requires high { value <ℤ pos 2048 }
        ensures { result ≡ value }
    {
        Immediate { value }
    }

    /// Its number, -2,048 to 2,047.
    pub fn value(self) -> i16
        ensures value { result ≡ self }
        ensures low { neg_ℤ (pos 2048) ≤ℤ result }
        ensures high { result <ℤ pos 2048 }
    {
        self.value
    }
}

/// The upper 20 bits of a word of 32 bits, 0 to 0xFFFFF.
#[derive(Clone, Copy, PartialEq, Eq, Debug, Drop)]
pub struct Upper {
    bits: u32,
}

impl Model for Upper {
    ghost use Rattle.std.specs.Prelude.{ℕ, ◌<◌, ◌^◌};

    ghost Value = { ℕ };

    ghost view = { λ u. u.bits };

    ghost invariant = { λ u. u.bits < 2 ^ 20 };

    ghost inverse = { λ n. record { bits = n } };
}

impl Upper {
    /// The upper bits that are this number.
    pub const fn of(bits: u32) -> Upper
        requires { bits < 2 ^ 20 }
        ensures { result ≡ bits }
    {
        Upper { bits }
    }

    /// Their number, 0 to 0xFFFFF.
    pub fn bits(self) -> u32
        ensures value { result ≡ self }
        ensures range { result < 2 ^ 20 }
    {
        self.bits
    }
}

/// The amount of a shift, 0 to 63.
#[derive(Clone, Copy, PartialEq, Eq, Debug, Drop)]
pub struct Shift {
    amount: u8,
}

impl Model for Shift {
    ghost use Rattle.std.specs.Prelude.{ℕ, ◌<◌};

    ghost Value = { ℕ };

    ghost view = { λ s. s.amount };

    ghost invariant = { λ s. s.amount < 64 };

    ghost inverse = { λ n. record { amount = n } };
}

impl Shift {
    /// The shift by this amount.
    pub const fn of(amount: u8) -> Shift
        requires { amount < 64 }
        ensures { result ≡ amount }
    {
        Shift { amount }
    }

    /// Its amount, 0 to 63.
    pub fn amount(self) -> u8
        ensures value { result ≡ self }
        ensures range { result < 64 }
    {
        self.amount
    }
}

/// How far a branch goes, in bytes: an even number, -4,096 to 4,094.
#[derive(Clone, Copy, PartialEq, Eq, Debug, Drop)]
pub struct BranchOffset {
    bytes: i16,
}

impl Model for BranchOffset {
    ghost use Rattle.std.specs.Prelude.{ℤ};
    ghost use Rattle.rv64_words.specs.Fields.{IsBranchOffset};

    ghost Value = { ℤ };

    ghost view = { λ o. o.bytes };

    ghost invariant = { λ o. IsBranchOffset o.bytes };

    ghost inverse = { λ z. record { bytes = z } };
}

impl BranchOffset {
    /// The offset of so many bytes.
    pub const fn of(bytes: i16) -> BranchOffset
        requires low { neg_ℤ (pos 4096) ≤ℤ bytes }
        requires high { bytes <ℤ pos 4096 }
        requires even { bits_13 bytes % 2 ≡ 0 }
        ensures { result ≡ bytes }
    {
        BranchOffset { bytes }
    }

    /// Its number of bytes.
    pub fn bytes(self) -> i16
        ensures value { result ≡ self }
        ensures low { neg_ℤ (pos 4096) ≤ℤ result }
        ensures high { result <ℤ pos 4096 }
        ensures even { bits_13 result % 2 ≡ 0 }
    {
        self.bytes
    }
}

/// How far a jump goes, in bytes: an even number, -1,048,576 to 1,048,574.
#[derive(Clone, Copy, PartialEq, Eq, Debug, Drop)]
pub struct JumpOffset {
    bytes: i32,
}

impl Model for JumpOffset {
    ghost use Rattle.std.specs.Prelude.{ℤ};
    ghost use Rattle.rv64_words.specs.Fields.{IsJumpOffset};

    ghost Value = { ℤ };

    ghost view = { λ o. o.bytes };

    ghost invariant = { λ o. IsJumpOffset o.bytes };

    ghost inverse = { λ z. record { bytes = z } };
}

impl JumpOffset {
    /// The offset of so many bytes.
    pub const fn of(bytes: i32) -> JumpOffset
        requires low { neg_ℤ (pos 1048576) ≤ℤ bytes }
        requires high { bytes <ℤ pos 1048576 }
        requires even { bits_21 bytes % 2 ≡ 0 }
        ensures { result ≡ bytes }
    {
        JumpOffset { bytes }
    }

    /// Its number of bytes.
    pub fn bytes(self) -> i32
        ensures value { result ≡ self }
        ensures low { neg_ℤ (pos 1048576) ≤ℤ result }
        ensures high { result <ℤ pos 1048576 }
        ensures even { bits_21 result % 2 ≡ 0 }
    {
        self.bytes
    }
}
