// The machine's memory: where its regions lie, and how large they and images are at most.

/// The address of the stack's first word.
pub const STACK_BASE: u64 = 0x1000_0000;

/// The address of the block table's first word.
pub const TABLE_BASE: u64 = 0x2000_0000;

/// The address of the cells' first word.
pub const CELLS_BASE: u64 = 0x4000_0000;

/// The most blocks that are ever allocated; they have the numbers 1 to this one.
pub const MOST_BLOCKS: u32 = 262_144;

/// The words of the block table: two for each block number from 0 to 262,144.
pub const TABLE_WORDS: usize = 524_290;

/// The most words of an image.
pub const MOST_WORDS: usize = 250_000;

/// The most words of 64 bits of an image's stack.
pub const MOST_STACK: u32 = 8_388_608;
