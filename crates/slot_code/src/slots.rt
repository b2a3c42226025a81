// Programs and functions of code over slots.

ghost use Rattle.std.specs.Prelude.{◌≡◌};
ghost use Rattle.slot_code.specs.Numbering.{slot_number};

use crate::item::{Slot, SlotItem};
use bril_tree::sequence::Seq;

/// A function. Its first `args` variables are its arguments. Its slots are its variables and then the shadows that its items
/// use, numbered from 0 in the order of `slots`; a `speculate` saves all of them, and an abort restores all of them.
/// `shadow_numbers` has for each variable the number of its shadow, if some item uses that. `depths` has for each point, the
/// function's end last, how many speculations are open there, 0 where no walk leads, and `newest` the `speculate` of the newest of
/// them, 0 where none is open. A frame has `words` words of 64 bits: two, and one for each slot as it is and as it was at each open
/// speculation.
#[derive(Drop)]
pub struct SlotFunction {
    pub args: u32,
    pub variables: usize,
    pub slots: Seq<Slot>,
    pub shadow_numbers: Seq<usize>,
    pub depths: Seq<usize>,
    pub newest: Seq<u32>,
    pub words: u64,
    pub code: Seq<SlotItem>,
}

impl SlotFunction {
    /// The number of a slot of the function: its place in `slots`, from 0. Takes no memory.
    pub fn number(&self, slot: Slot) -> usize
        ensures { result ≡ slot_number self.now.shadow_numbers slot }
    {
        match slot {
            Slot::Variable(x) => x as usize,
            Slot::Shadow(x) => match self.shadow_numbers.as_slice().get(x as usize) {
                Some(number) => *number,
                None => 0,
            },
        }
    }
}

/// A program: its functions, numbered from 0, and the number of `main`.
#[derive(Drop)]
pub struct Slots {
    pub funcs: Seq<SlotFunction>,
    pub main: u32,
}
