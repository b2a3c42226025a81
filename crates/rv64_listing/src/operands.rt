// What stands behind a mnemonic. Each function takes what is left of a line, and gives what it reads there with what is left
// then, or with nothing where it reads to the end. None of them takes memory.

ghost use Rattle.std.specs.Prelude.{◌≡◌, option_map};
ghost use Rattle.rv64_listing.specs.Reading.{at_in, base_in, first_in, long_in, next_in, next_number_in, number_in, register_in, short_in, three_in};
ghost use Rattle.rv64_listing.specs.Tokens.{cut};

use crate::register::register_named;
use crate::tokens::{close, comma, is_end, open, run, space};
use bril_nums::read_int;
use rv64_words::field::Register;

// A register and a number.
#[tactic(auto, unfolding(crate::specs::Reading::short_in))]
pub fn short(rest: &[u8]) -> Option<(Register, i64)>
    ensures { result ≡ short_in (cut rest.now) }
{
    let Some((r, rest)) = first(rest) else {
        return None;
    };
    let (number, rest) = next_number(rest)?;
    if !is_end(rest) {
        return None;
    }
    Some((r, number))
}

// Two registers and a number.
#[tactic(auto, unfolding(crate::specs::Reading::long_in))]
pub fn long(rest: &[u8]) -> Option<(Register, Register, i64)>
    ensures { result ≡ long_in (cut rest.now) }
{
    let Some((r, rest)) = first(rest) else {
        return None;
    };
    let Some((s, rest)) = next(rest) else {
        return None;
    };
    let (number, rest) = next_number(rest)?;
    if !is_end(rest) {
        return None;
    }
    Some((r, s, number))
}

// A register, and a number with the register of an address.
#[tactic(auto, unfolding(crate::specs::Reading::at_in))]
pub fn at(rest: &[u8]) -> Option<(Register, i64, Register)>
    ensures { result ≡ at_in (cut rest.now) }
{
    let Some((r, rest)) = first(rest) else {
        return None;
    };
    let (number, rest) = next_number(rest)?;
    let Some((s, rest)) = base(rest) else {
        return None;
    };
    if !is_end(rest) {
        return None;
    }
    Some((r, number, s))
}

// Three registers.
#[tactic(auto, unfolding(crate::specs::Reading::three_in))]
pub fn three(rest: &[u8]) -> Option<(Register, Register, Register)>
    ensures { result ≡ three_in (cut rest.now) }
{
    let Some((r, rest)) = first(rest) else {
        return None;
    };
    let Some((s, rest)) = next(rest) else {
        return None;
    };
    let Some((t, rest)) = next(rest) else {
        return None;
    };
    if !is_end(rest) {
        return None;
    }
    Some((r, s, t))
}

// ---- one operand

// A register behind blanks.
#[tactic(auto, unfolding(crate::specs::Reading::first_in))]
fn first(rest: &[u8]) -> Option<(Register, &[u8])>
    ensures { option_map (λ p. (p.0, cut p.1.now)) result ≡ first_in (cut rest.now) }
{
    let rest = space(rest)?;
    register(rest)
}

// A register behind a comma and blanks.
#[tactic(auto, unfolding(crate::specs::Reading::next_in))]
fn next(rest: &[u8]) -> Option<(Register, &[u8])>
    ensures { option_map (λ p. (p.0, cut p.1.now)) result ≡ next_in (cut rest.now) }
{
    let rest = comma(rest)?;
    first(rest)
}

// A number behind a comma and blanks.
#[tactic(auto, unfolding(crate::specs::Reading::next_number_in))]
fn next_number(rest: &[u8]) -> Option<(i64, &[u8])>
    ensures { option_map (λ p. (p.0, cut p.1.now)) result ≡ next_number_in (cut rest.now) }
{
    let rest = comma(rest)?;
    let rest = space(rest)?;
    number(rest)
}

// A register in parentheses.
#[tactic(auto, unfolding(crate::specs::Reading::base_in))]
fn base(rest: &[u8]) -> Option<(Register, &[u8])>
    ensures { option_map (λ p. (p.0, cut p.1.now)) result ≡ base_in (cut rest.now) }
{
    let rest = open(rest)?;
    let Some((register, rest)) = register(rest) else {
        return None;
    };
    let rest = close(rest)?;
    Some((register, rest))
}

fn register(rest: &[u8]) -> Option<(Register, &[u8])>
    ensures { option_map (λ p. (p.0, cut p.1.now)) result ≡ register_in (cut rest.now) }
{
    let (text, rest) = run(rest)?;
    let register = register_named(text)?;
    Some((register, rest))
}

fn number(rest: &[u8]) -> Option<(i64, &[u8])>
    ensures { option_map (λ p. (p.0, cut p.1.now)) result ≡ number_in (cut rest.now) }
{
    let (text, rest) = run(rest)?;
    let number = read_int(text)?;
    Some((number, rest))
}
