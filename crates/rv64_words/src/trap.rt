// Why the machine can't go on.

/// A trap. `pc` is that of the word at which it comes; a trap executes nothing.
#[derive(Clone, Copy, PartialEq, Eq, Debug, Drop)]
pub enum Trap {
    /// The pc isn't a multiple of 4 inside the image.
    Fetch { pc: u64 },
    /// The bits at the pc are no word.
    Word { pc: u64 },
    /// A load isn't at a multiple of 8 inside a region, or a store isn't at one inside the stack or the cells.
    Address { pc: u64, at: u64 },
    /// The environment has no call of this number, or the number is 8 and the argument names no end.
    Call { pc: u64, number: u64 },
    /// The argument of the call that prints a char is no scalar value of Unicode.
    NoScalar { pc: u64, value: u64 },
}
