// The words of a frame.

ghost use Rattle.std.specs.Prelude.{◌≡◌, ◌+◌, ◌*◌, ◌^◌, ◌<◌, length, suc, take};
ghost use Rattle.bril_tree.specs.Value as values;
ghost use Rattle.rv64_emit_laws.specs.layout.Homes as homes;
ghost use Rattle.rv64_emit_laws.specs.layout.Fits.{frame_reach};
ghost use Rattle.rv64_words_laws.specs.sequences.Sequences as sequences;

use bril_tree::value::Value;
use slot_code::{Slot, SlotFunction};

// Slots in registers are among so many first ones: their own words of the frame have numbers below 256.
const NEAR_SLOTS: usize = 254;

/// The word of a value.
pub fn word_of(value: Value) -> u64
    ensures { result ≡ values.word_of value }
{
    match value {
        Value::Int(n) => n.cast_unsigned(),
        Value::Bool(b) => u64::from(b),
        Value::Char(c) => c as u64,
        Value::Ptr { block, offset } => block as u64 * 0x1_0000_0000
            + offset.cast_unsigned() as u64,
    }
}

/// The number of a function's slots.
pub fn slot_count(func: &SlotFunction) -> u64
    ensures { result ≡ length func.now.slots }
{
    func.slots.as_slice().len() as u64
}

// How many speculations are open at a point.
fn depth_of(func: &SlotFunction, point: u32) -> usize
    ensures { result ≡ homes.depth_at func.now point }
{
    match func.depths.as_slice().get(point as usize) {
        Some(depth) => *depth,
        None => 0,
    }
}

/// The `speculate` of the newest speculation that is open at a point, 0 where none is.
pub fn newest_of(func: &SlotFunction, point: u32) -> u32
    ensures { result ≡ homes.newest_at func.now point }
{
    match func.newest.as_slice().get(point as usize) {
        Some(site) => *site,
        None => 0,
    }
}

/// The first word of the newest level at a point.
pub fn level_word(func: &SlotFunction, point: u32) -> u64
    requires { length func.now.slots * (homes.depth_at func.now point + 2) < frame_reach }
    ensures { result ≡ homes.level_word func.now (homes.depth_at func.now point) }
{
    2 + slot_count(func) * depth_of(func, point) as u64
}

/// The first word of the level after it.
pub fn next_level_word(func: &SlotFunction, point: u32) -> u64
    requires { length func.now.slots * (homes.depth_at func.now point + 2) < frame_reach }
    ensures { result ≡ homes.level_word func.now (suc (homes.depth_at func.now point)) }
{
    level_word(func, point) + slot_count(func)
}

/// The first slots, which those in registers are among.
pub fn near_slots(func: &SlotFunction) -> &[Slot]
    ensures { result.now ≡ take 254 func.now.slots }
{
    let slots = func.slots.as_slice();
    let many = slots.len().min(NEAR_SLOTS);
    &slots[..many]
}

/// The word of the frame that is that of argument `number` in the frame above.
pub fn argument_word(func: &SlotFunction, number: usize) -> u64
    requires frame { func.now.words < frame_reach }
    requires number { number < 2 ^ 27 }
    ensures value { result ≡ homes.argument_word func.now number }
    ensures few { result < 2 ^ 28 }
{
    func.words + (2 + number as u64)
}

/// By how many bytes register 2 grows where a frame is made above that of a function.
pub fn bytes_up(func: &SlotFunction) -> u64
    requires { func.now.words < frame_reach }
    ensures { result ≡ sequences.bytes_up func.now.words }
{
    8 * func.words
}

/// And where the frame of the function is the newest one again, modulo 2^64.
pub fn bytes_down(func: &SlotFunction) -> u64
    requires { func.now.words < frame_reach }
    ensures { result ≡ sequences.bytes_down func.now.words }
{
    0u64.wrapping_sub(8 * func.words)
}
