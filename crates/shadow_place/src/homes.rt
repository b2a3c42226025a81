// The homes of variables and of shadows, by the registers of their slots.

ghost use Rattle.std.specs.Prelude.{◌≡◌, ◌≤◌, ◌+◌, ◌^◌, map, slice_index, IfOk, IfErr};
ghost use Rattle.std.specs.List.{range_with_len};
ghost use Rattle.bril_tree.specs.FrameWords.{frame_head};
ghost use Rattle.shadow_place.specs.Registers.{home_from};

use bril_tree::home::Home;
use std::alloc::{AllocError, Global};

// The register of a slot of this number, 0 for none.
fn register_of(registers: &[u8], slot: usize) -> u8
    ensures { result ≡ slice_index registers.now slot }
{
    match registers.get(slot) {
        None => 0,
        Some(register) => *register,
    }
}

// The slot's own word of the frame. A word whose number doesn't fit 32 bits is taken to need more memory than there is, and no
// other.
fn own_word(slot: usize) -> Result<u32, AllocError>
    ensures number { IfOk result (λ word. word ≡ frame_head + slot) }
    ensures fault { IfErr result (λ _. 2 ^ 32 ≤ frame_head + slot) }
{
    if slot > u32::MAX as usize - 2 {
        return Err(AllocError);
    }
    Ok(2 + slot as u32)
}

// The home of a slot of this number.
fn home_from(registers: &[u8], slot: usize) -> Result<Home, AllocError>
    ensures { IfOk result (λ home. home ≡ home_from registers.now slot) }
{
    let register = register_of(registers, slot);
    if register == 0 {
        return Ok(Home::Frame(own_word(slot)?));
    }
    Ok(Home::Reg(register))
}

// The homes of so many variables, whose slots have their numbers.
pub(crate) fn variable_homes(
    alloc: Global,
    registers: &[u8],
    variables: usize,
) -> Result<Vec<Home>, AllocError>
    ensures { IfOk result (λ homes. homes.items ≡ map (home_from registers.now) (range_with_len 0 variables)) }
{
    let mut homes = Vec::new(alloc);
    for x in 0..variables {
        homes.push(home_from(registers, x)?)?;
    }
    Ok(homes)
}

// The homes of the shadows whose slots have these numbers.
pub(crate) fn shadow_homes(
    alloc: Global,
    registers: &[u8],
    numbers: &[usize],
) -> Result<Vec<Home>, AllocError>
    ensures { IfOk result (λ homes. homes.items ≡ map (home_from registers.now) numbers.now) }
{
    let mut homes = Vec::new(alloc);
    for number in numbers {
        homes.push(home_from(registers, *number)?)?;
    }
    Ok(homes)
}
