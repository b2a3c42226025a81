//! Bril's ints: arithmetic, reading and writing, each exactly; and reading undoes writing. Nothing here allocates.
//!
//! 1. Arithmetic (`src/arith.rt`, `specs/Arith.antt`).
//! 2. Ints in decimal, read and written (`src/decimal.rt`, `specs/Decimal.antt`).
//! 3. Reading undoes writing (`src/laws.rt`).
#![tactic(auto)]

mod arith;
mod decimal;
mod laws;

pub use arith::{quot, scalar, wrap_add, wrap_mul, wrap_sub};
pub use decimal::{put_int, read_int};
pub use laws::{int_text_law, plain_decimal_law, quotient_law, round_trip_law, wrapping_law};
