// Numbers of locations.

ghost use Rattle.std.specs.Prelude.{◌≡◌, ◌<◌, ◌+◌, ◌*◌, ◌≤◌, ◌^◌, IfOk, IfErr};

use std::alloc::AllocError;

// The number of locations of so many variables: two for each. It and 128 more have numbers of 32 bits; 2^31 - 64 variables and
// more are taken to need more memory than there is, and no fewer.
pub(crate) fn location_count(variables: usize) -> Result<u32, AllocError>
    ensures count { IfOk result (λ count. count ≡ 2 * variables) }
    ensures few { IfOk result (λ count. count + 128 < 2 ^ 32) }
    ensures fault { IfErr result (λ _. 2 ^ 32 ≤ 2 * variables + 128) }
{
    if variables > (u32::MAX / 2 - 64) as usize {
        return Err(AllocError);
    }
    Ok(2 * variables as u32)
}
