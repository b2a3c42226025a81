// The registers of emitted code, by what they hold.

/// Always 0; a write to it does nothing.
pub const ZERO: u8 = 0;

/// The way back of a call.
pub const LINK: u8 = 1;

/// The newest frame.
pub const FRAME: u8 = 2;

/// The first operand of an operation, and its result.
pub const FIRST: u8 = 5;

/// An address, or what is known of one so far.
pub const ADDRESS: u8 = 6;

/// The second operand of an operation.
pub const SECOND: u8 = 7;

/// How many frames may still be made.
pub const FRAMES_LEFT: u8 = 8;

/// The argument of an environment call, what a call gives, and what a function returns.
pub const ARGUMENT: u8 = 10;

/// The number of an environment call.
pub const CALL: u8 = 17;
