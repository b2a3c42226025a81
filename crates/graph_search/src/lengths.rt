// The lengths of lists as numbers of 32 bits.

ghost use Rattle.std.specs.Prelude.{◌≡◌, ◌≤◌, ◌<◌, ◌^◌, ◌-◌, IfOk, IfErr};

use std::alloc::AllocError;

/// The length of a list as a number of 32 bits below the greatest. A list of 2^32 - 1 or more is taken to need more memory than
/// there is, and no other is refused. Takes no memory.
pub fn number_of_length(length: usize) -> Result<u32, AllocError>
    ensures number { IfOk result (λ number. number ≡ length) }
    ensures fits { IfOk result (λ _. length < 2 ^ 32 - 1) }
    ensures fault { IfErr result (λ _. 2 ^ 32 - 1 ≤ length) }
{
    if length >= u32::MAX as usize {
        return Err(AllocError);
    }
    Ok(length as u32)
}
