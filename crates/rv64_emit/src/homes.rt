// Where the slots of a program's functions are, which of them speculations keep, and which are live; which functions are leaves, and
// whether items are marked.

ghost use Rattle.std.specs.Prelude.{◌≡◌, slice_get};
ghost use Rattle.std.specs.List.{list_all};
ghost use Rattle.bril_tree.specs.Place.{location_of};
ghost use Rattle.live_sets.specs.Liveness.{is_live};
ghost use Rattle.rv64_emit.specs.Placed.{all_homes, calls_none, homes_in, is_leaf_if, is_live_if, placed_homes};
ghost use Rattle.rv64_emit_laws.specs.layout.Homes as homes;
ghost use Rattle.slot_code.specs.Flow.{slot_location};

use bril_tree::home::Home;
use bril_tree::place::Place;
use live_sets::Live;
use shadow_place::Placed;
use slot_code::{Slot, SlotFunction, SlotItem, Slots};

/// The homes of all functions of code over slots, by a placement, and by what is live in each function. Where items are marked, each
/// but a label and `nop` has a word.
#[derive(Clone, Copy, Drop)]
pub struct ProgramHomes<'a> {
    marked: bool,
    slots: &'a Slots,
    placed: &'a Placed,
    lives: &'a [Live],
}

/// Those of one function.
#[derive(Clone, Copy, Drop)]
pub struct SlotHomes<'a> {
    marked: bool,
    leaf: bool,
    placed: &'a Placed,
    lives: &'a [Live],
    function: u32,
}

// The place that a slot is.
fn place_of(slot: Slot) -> Place
    ensures { location_of result ≡ slot_location slot }
{
    match slot {
        Slot::Variable(x) => Place::Var(x),
        Slot::Shadow(x) => Place::Shadow(x),
    }
}

// Whether a slot is live at a point.
fn is_live_slot(live: &Live, point: u32, slot: Slot) -> bool
    ensures { result ≡ is_live live.now (slot_location slot) point }
{
    match slot {
        Slot::Variable(x) => live.at(point, x),
        Slot::Shadow(x) => live.shadow_at(point, x),
    }
}

// The same in a function, by the tables of all.
fn is_live_in(lives: &[Live], function: u32, point: u32, slot: Slot) -> bool
    ensures { result ≡ is_live_if (slice_get lives.now function) point slot }
{
    match lives.get(function as usize) {
        None => false,
        Some(live) => is_live_slot(live, point, slot),
    }
}

// Whether an item calls no function.
fn calls_none(item: &SlotItem) -> bool
    ensures { result ≡ calls_none item.now }
{
    match item {
        SlotItem::Call { .. } => false,
        _ => true,
    }
}

// Whether none of a function's items calls one.
fn is_leaf(func: &SlotFunction) -> bool
    ensures { result ≡ list_all calls_none func.now.code }
{
    func.code.as_slice().iter().all(|item| calls_none(item))
}

// Whether the function of a number is there, and is a leaf.
fn is_leaf_at(slots: &Slots, number: u32) -> bool
    ensures { result ≡ is_leaf_if (slice_get slots.now.funcs number) }
{
    match slots.funcs.as_slice().get(number as usize) {
        None => false,
        Some(func) => is_leaf(func),
    }
}

impl<'a> ProgramHomes<'a> {
    /// The homes of a placement of code over slots, and of the tables of what is live in each function, in order, with items marked or
    /// not.
    pub fn of(
        marked: bool,
        slots: &'a Slots,
        placed: &'a Placed,
        lives: &'a [Live],
    ) -> ProgramHomes<'a>
        ensures { all_homes result ≡ placed_homes marked slots.now placed.now lives.now }
    {
        ProgramHomes {
            marked,
            slots,
            placed,
            lives,
        }
    }

    /// Those of a function. Takes time in proportion to its items.
    pub fn in_function(&self, function: u32) -> SlotHomes<'a>
        ensures { homes_in result ≡ all_homes self.now function }
    {
        SlotHomes {
            marked: self.marked,
            leaf: is_leaf_at(self.slots, function),
            placed: self.placed,
            lives: self.lives,
            function,
        }
    }
}

impl<'a> SlotHomes<'a> {
    /// Whether items are marked.
    pub fn is_marked(&self) -> bool
        ensures { result ≡ (homes_in self.now).marked }
    {
        self.marked
    }

    /// Whether the function is a leaf.
    pub fn is_leaf(&self) -> bool
        ensures { result ≡ (homes_in self.now).leaf }
    {
        self.leaf
    }

    /// Where a slot is.
    pub fn home(&self, slot: Slot) -> Home
        ensures { result ≡ (homes_in self.now).home slot }
    {
        self.placed.home(self.function, place_of(slot))
    }

    /// Where a variable is.
    pub fn variable(&self, variable: u32) -> Home
        ensures { result ≡ homes.variable_home (homes_in self.now) variable }
    {
        self.home(Slot::Variable(variable))
    }

    /// Whether the speculation of the `speculate` at a point keeps a slot.
    pub fn keeps(&self, site: u32, slot: Slot) -> bool
        ensures { result ≡ (homes_in self.now).saved site slot }
    {
        self.placed.saved(self.function, site, place_of(slot))
    }

    /// Whether a slot is live at a point.
    pub fn is_live(&self, point: u32, slot: Slot) -> bool
        ensures { result ≡ (homes_in self.now).live point slot }
    {
        is_live_in(self.lives, self.function, point, slot)
    }

    /// Where a function has its argument of a number, from 0, as it begins, if it is live there.
    pub fn given(&self, function: u32, argument: u32) -> Option<Home>
        ensures { result ≡ (homes_in self.now).given function argument }
    {
        let slot = Slot::Variable(argument);
        if is_live_in(self.lives, function, 0, slot) {
            return Some(self.placed.home(function, place_of(slot)));
        }
        None
    }
}
