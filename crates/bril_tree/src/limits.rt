// What bounds a run, and how it ends.

ghost use Rattle.std.specs.Prelude.{◌≤◌};

/// The bounds of a run: at most `frames` frames at once, 1 to 65,536, and at most `cells` cells in live blocks, 1 to
/// 4,194,304.
#[derive(Clone, Copy, PartialEq, Eq, Debug, Drop)]
pub struct Limits {
    pub frames: u32,
    pub cells: u32,
    pub ghost some_frames: { 1 ≤ frames },
    pub ghost few_frames: { frames ≤ 65536 },
    pub ghost some_cells: { 1 ≤ cells },
    pub ghost few_cells: { cells ≤ 4194304 },
}

/// Why a run stopped before its end. The kinds have the numbers 1 to 11, in this order.
#[derive(Clone, Copy, PartialEq, Eq, Debug, Drop)]
pub enum Fault {
    /// A division by 0.
    DivZero,
    /// `int2char` of a number that is no scalar value of Unicode.
    BadChar,
    /// `alloc` of a count below 1.
    BadAlloc,
    /// `free` of anything but offset 0 of a live block.
    BadFree,
    /// `load` or `store` at an offset outside a live block, or in a block that isn't live.
    Access,
    /// `load` of a cell of a live block that was never stored.
    Uninit,
    /// The end of the first frame while a block is live.
    Leak,
    /// A call that would make one frame more than the limit.
    Frames,
    /// `alloc` of a count that, added to the sizes of all live blocks, passes the limit.
    Cells,
    /// `ptradd` to an offset outside the 32-bit signed range.
    PtrRange,
    /// `alloc` after 262,144 others.
    Allocs,
}

/// How a run ended.
#[derive(Clone, Copy, PartialEq, Eq, Debug, Drop)]
pub enum End {
    Ended,
    Faulted(Fault),
}
