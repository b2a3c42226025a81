// The numbers of a line, each in the range of its field; and the bits of a line that tells them. None of these functions takes
// memory.

ghost use Rattle.std.specs.Prelude.{◌≡◌, ◌<◌, ◌≤◌, ◌*◌, ◌^◌, IfSome};
ghost use Rattle.rv64_listing.specs.Reading.{bits_told, digit_told, even_told, is_even, is_within, natural_told, within_told};

use rv64_words::field::{BranchOffset, Immediate, JumpOffset, Shift, Upper};

pub fn upper(number: i64) -> Option<Upper>
    ensures { result ≡ natural_told (2 ^ 20) number }
{
    let bits = natural(number, 1_048_576)?;
    Some(Upper::of(bits))
}

pub fn shift(number: i64) -> Option<Shift>
    ensures { result ≡ natural_told 64 number }
{
    let amount = natural(number, 64)?;
    Some(Shift::of(amount as u8))
}

pub fn immediate(number: i64) -> Option<Immediate>
    ensures { result ≡ within_told 2048 number }
{
    if !is_within(number, 2048) {
        return None;
    }
    Some(Immediate::of(number as i16))
}

pub fn branch_offset(number: i64) -> Option<BranchOffset>
    ensures { result ≡ even_told 4096 number }
{
    if !is_within(number, 4096) {
        return None;
    }
    if !is_even(number) {
        return None;
    }
    Some(BranchOffset::of(number as i16))
}

pub fn jump_offset(number: i64) -> Option<JumpOffset>
    ensures { result ≡ even_told 1048576 number }
{
    if !is_within(number, 1_048_576) {
        return None;
    }
    if !is_even(number) {
        return None;
    }
    Some(JumpOffset::of(number as i32))
}

// The number, where it is from 0 on and below the bound.
fn natural(number: i64, bound: u32) -> Option<u32>
    ensures value { result ≡ natural_told bound number }
    ensures below { IfSome result (λ n. n < bound) }
{
    if number < 0 {
        return None;
    }
    if number >= bound as i64 {
        return None;
    }
    Some(number as u32)
}

// Whether the number is from -bound to bound - 1.
fn is_within(number: i64, bound: u32) -> bool
    ensures { result ≡ is_within bound number }
{
    if number < 0 {
        return -(bound as i64) <= number;
    }
    number < bound as i64
}

fn is_even(number: i64) -> bool
    ensures { result ≡ is_even number }
{
    number.unsigned_abs() % 2 == 0
}

// The bits of eight hexadecimal digits in lower case.
pub fn bits(text: &[u8]) -> Option<u32>
    ensures { result ≡ bits_told text.now }
{
    if text.len() != 8 {
        return None;
    }
    let mut bits: u32 = 0;
    for byte in text {
        let Some(digit) = digit(*byte) else {
            return None;
        };
        bits = 16 * bits + digit;
    }
    Some(bits)
}

#[tactic(auto, unfolding(crate::specs::Reading::digit_told))]
fn digit(byte: u8) -> Option<u32>
    ensures { result ≡ digit_told byte }
{
    match byte {
        b'0'..=b'9' => Some((byte - b'0') as u32),
        b'a'..=b'f' => Some((byte - b'a' + 10) as u32),
        _ => None,
    }
}
