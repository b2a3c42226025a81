// Whether a pass may make so many items.

ghost use Rattle.std.specs.Prelude.{◌≡◌, ◌⊎◌, ◌≤◌, OnOk, IfErr};
ghost use Rattle.bril_tree.specs.Size.{IsCounted, item_count};
ghost use Rattle.pass_law.specs.Bounds.{IsTooLarge};
ghost use Rattle.pass_law.specs.Meaning.{IsRefused};
ghost use Rattle.pass_law.specs.declared.fault.PassFault.TheVariants.{Memory};

use crate::fault::PassFault;
use bril_tree::program::Prog;

/// Refuses a bound on items that passes 1,000,000 and the number of items of the program: `TooLarge` comes exactly there
/// and carries the bound, and no other error comes. Takes no memory.
pub fn room(prog: &Prog, bound: u64) -> Result<(), PassFault>
    requires { IsCounted prog.now }
    ensures ok { OnOk result (IsTooLarge bound (item_count prog.now) → ⊥) }
    ensures fits { OnOk result ((bound ≤ 1000000) ⊎ (bound ≤ item_count prog.now)) }
    ensures refused { IfErr result (IsRefused (λ b. b ≡ bound) (item_count prog.now)) }
    ensures memory { IfErr result (λ fault. fault ≡ Memory → ⊥) }
{
    if bound > 1_000_000 && bound > prog.size() {
        return Err(PassFault::TooLarge { bound });
    }
    Ok(())
}
