// Which slots of a function are brought into words of the frame, or from there.

ghost use Rattle.std.specs.Prelude.{◌≡◌};
ghost use Rattle.rv64_emit.specs.Moved.{IsReady, is_moved};
ghost use Rattle.rv64_emit.specs.Placed.{homes_in};
ghost use Rattle.rv64_emit_laws.specs.layout.Homes as homes;

use crate::frame::newest_of;
use crate::homes::SlotHomes;
use bril_tree::home::Home;
use slot_code::{Slot, SlotFunction};

/// Which slots are meant.
#[derive(Clone, Copy, Drop)]
pub enum Moved {
    /// Those that the `speculate` at a point keeps.
    Kept { point: u32 },
    /// Those that a guard at a point takes back for the item at its label.
    TakenBack { point: u32, label: u32 },
    /// Those whose registers the call at a point keeps. The variable that gets its result isn't among them.
    Outliving { point: u32, dest: Option<u32> },
    /// Those that a function loads as it begins.
    Loaded,
}

// Whether a home is a register.
fn in_register(home: Home) -> bool
    ensures { result ≡ homes.in_register home }
{
    match home {
        Home::Reg(_) => true,
        Home::Frame(_) => false,
    }
}

// Whether a slot is this variable, if it is one.
fn is_variable(variable: Option<u32>, slot: Slot) -> bool
    ensures { result ≡ homes.is_variable variable slot }
{
    let Some(x) = variable else {
        return false;
    };
    match slot {
        Slot::Variable(y) => x == y,
        Slot::Shadow(_) => false,
    }
}

// Whether a slot is an argument of its function.
fn is_argument(func: &SlotFunction, slot: Slot) -> bool
    ensures { result ≡ homes.is_argument func.now slot }
{
    match slot {
        Slot::Variable(x) => x < func.args,
        Slot::Shadow(_) => false,
    }
}

impl Moved {
    /// Whether a slot is among them.
    pub fn has(self, homes: &SlotHomes<'_>, func: &SlotFunction, slot: Slot) -> bool
        requires { IsReady self }
        ensures { result ≡ is_moved (homes_in homes.now) func.now self slot }
    {
        match self {
            Moved::Kept { point } => homes.keeps(point, slot) && homes.is_live(point, slot),
            Moved::TakenBack { point, label } => {
                homes.keeps(newest_of(func, point), slot) && homes.is_live(label, slot)
            }
            Moved::Outliving { point, dest } => {
                in_register(homes.home(slot))
                    && homes.is_live(point + 1, slot)
                    && !is_variable(dest, slot)
            }
            Moved::Loaded => {
                in_register(homes.home(slot)) && is_argument(func, slot) && homes.is_live(0, slot)
            }
        }
    }
}
