// The registers of slots.

ghost use Rattle.std.specs.Prelude.{◌≡◌, ◌<◌, ◌≤◌, map, length, slice_index, IfOk};
ghost use Rattle.std.specs.List.{range_with_len};
ghost use Rattle.shadow_place.specs.Registers.{AreHomeRegisters, AreOwnRegisters, home_register, home_registers, own_register};

use std::alloc::{AllocError, Global};

// So many registers are homes: 3, 4, 9, 11 to 16 and 18 to 31.
pub(crate) const HOME_REGISTERS: usize = 23;

// The home register of this number, from 0.
pub(crate) fn home_register(n: usize) -> u8
    requires { n < home_registers }
    ensures { result ≡ home_register n }
{
    let n = n as u8;
    match n {
        0..=1 => n + 3,
        2 => 9,
        3..=8 => n + 8,
        _ => n + 9,
    }
}

// The register of a slot of this number, where each of the first slots has one of its own; 0 for none.
fn own_register(slot: usize) -> u8
    ensures { result ≡ own_register slot }
{
    if slot < HOME_REGISTERS {
        home_register(slot)
    } else {
        0
    }
}

// A register of its own for each of the first of so many slots, and 0 for each of the others.
pub(crate) fn own_registers(alloc: Global, slots: usize) -> Result<Vec<u8>, AllocError>
    ensures { IfOk result (λ registers. registers.items ≡ map own_register (range_with_len 0 slots)) }
{
    let mut registers = Vec::new(alloc);
    for slot in 0..slots {
        registers.push(own_register(slot))?;
    }
    Ok(registers)
}
