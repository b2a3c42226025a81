// Homes of values.

/// Where a value is while the machine runs: the register of that number, or a word of the frame, counted in words of 64
/// bits from the frame's address, which register 2 holds.
#[derive(Clone, Copy, PartialEq, Eq, Debug, Drop)]
pub enum Home {
    Reg(u8),
    Frame(u32),
}
