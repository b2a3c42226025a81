// Moves of slots between their homes and words of the frame: what calls, `speculate`, guards and the beginning of a function do.

ghost use Rattle.std.specs.Prelude.{◌≡◌, ◌+◌, ◌^◌, ◌<◌, ◌≤◌, ◌++◌, [], ◌∷◌, map, OnOk};
ghost use Rattle.rv64_emit.specs.Moved.{AreMovable, AreMovableAt, IsReady};
ghost use Rattle.rv64_emit.specs.Placed.{homes_in};
ghost use Rattle.rv64_emit.specs.SlotMoves.{AreReady, all_moves, moves_of_slots, size_by, words_by};
ghost use Rattle.rv64_emit_laws.specs.layout.Fits.{IsReached};
ghost use Rattle.rv64_emit_laws.specs.layout.Homes.{call_moves, guard_moves, opening_moves, speculate_moves};
ghost use Rattle.rv64_words.specs.Encoding.{encoded};
ghost use Rattle.rv64_words.specs.Region.{most_words};

use crate::frame::{level_word, near_slots, next_level_word};
use crate::homes::SlotHomes;
use crate::moved::Moved;
use crate::moves::{Transfer, put_transfer, transfer_size_of};
use bril_tree::sequence::Seq;
use slot_code::{Slot, SlotFunction};
use std::alloc::AllocError;

/// The moves between the homes of those of these slots that are meant and the words of the frame from `first` on, in order.
#[derive(Clone, Copy, Drop)]
pub struct SlotMoves<'a> {
    homes: SlotHomes<'a>,
    func: &'a SlotFunction,
    moved: Moved,
    slots: &'a [Slot],
    first: u64,
}

// ---- which they are

impl<'a> SlotMoves<'a> {
    /// Those by which the `speculate` at a point keeps slots at a new level.
    pub fn kept(homes: &SlotHomes<'a>, func: &'a SlotFunction, point: u32) -> SlotMoves<'a>
        requires { AreMovableAt (homes_in homes.now) func.now point }
        ensures moves { all_moves result ≡ speculate_moves (homes_in homes.now) func.now point }
        ensures ready { AreReady result }
    {
        SlotMoves {
            homes: *homes,
            func,
            moved: Moved::Kept { point },
            slots: func.slots.as_slice(),
            first: next_level_word(func, point),
        }
    }

    /// Those by which the guard at a point takes slots back from the newest level, for the item at its label.
    pub fn taken_back(
        homes: &SlotHomes<'a>,
        func: &'a SlotFunction,
        point: u32,
        label: u32,
    ) -> SlotMoves<'a>
        requires { AreMovableAt (homes_in homes.now) func.now point }
        ensures moves { all_moves result ≡ guard_moves (homes_in homes.now) func.now point label }
        ensures ready { AreReady result }
    {
        SlotMoves {
            homes: *homes,
            func,
            moved: Moved::TakenBack { point, label },
            slots: func.slots.as_slice(),
            first: level_word(func, point),
        }
    }

    /// Those by which the call at a point keeps registers in the slots' own words, and loads them back.
    pub fn outliving(
        homes: &SlotHomes<'a>,
        func: &'a SlotFunction,
        point: u32,
        dest: Option<u32>,
    ) -> SlotMoves<'a>
        requires { AreMovableAt (homes_in homes.now) func.now point }
        ensures moves { all_moves result ≡ call_moves (homes_in homes.now) func.now point dest }
        ensures ready { AreReady result }
    {
        SlotMoves {
            homes: *homes,
            func,
            moved: Moved::Outliving { point, dest },
            slots: near_slots(func),
            first: 2,
        }
    }

    /// Those by which a function loads the arguments whose homes are registers, as it begins.
    pub fn loaded(homes: &SlotHomes<'a>, func: &'a SlotFunction) -> SlotMoves<'a>
        requires { AreMovable (homes_in homes.now) func.now }
        ensures moves { all_moves result ≡ opening_moves (homes_in homes.now) func.now }
        ensures ready { AreReady result }
    {
        SlotMoves {
            homes: *homes,
            func,
            moved: Moved::Loaded,
            slots: near_slots(func),
            first: 2,
        }
    }
}

// ---- their words, and how many they are

impl SlotMoves<'_> {
    // Of the slot of a number, if it is meant.
    fn put_one(
        &self,
        code: &mut Seq<u32>,
        transfer: Transfer,
        slot: Slot,
        k: usize,
    ) -> Result<(), AllocError>
        requires ready { IsReady self.now.moved }
        requires slot { IsReached ((homes_in self.now.homes).home slot) }
        requires word { self.now.first + k < 2 ^ 28 }
        ensures { OnOk result (code.new ≡ code.old ++ map encoded (words_by transfer (moves_of_slots self.now k (slot ∷ [])))) }
    {
        if self.moved.has(&self.homes, self.func, slot) {
            return put_transfer(code, transfer, self.homes.home(slot), self.first + k as u64);
        }
        Ok(())
    }

    /// Appends their words, one way or the other.
    pub fn put(&self, code: &mut Seq<u32>, transfer: Transfer) -> Result<(), AllocError>
        requires { AreReady self.now }
        ensures { OnOk result (code.new ≡ code.old ++ map encoded (words_by transfer (all_moves self.now))) }
    {
        for (k, slot) in self.slots.iter().enumerate() {
            self.put_one(code, transfer, *slot, k)?;
        }
        Ok(())
    }

    fn one_size(&self, transfer: Transfer, slot: Slot, k: usize) -> u32
        requires ready { IsReady self.now.moved }
        requires word { self.now.first + k < 2 ^ 28 }
        ensures value { result ≡ size_by transfer (moves_of_slots self.now k (slot ∷ [])) }
        ensures few { result ≤ 6 }
    {
        if self.moved.has(&self.homes, self.func, slot) {
            return transfer_size_of(transfer, self.homes.home(slot), self.first + k as u64);
        }
        0
    }

    /// How many words that are.
    pub fn size(&self, transfer: Transfer) -> u32
        requires ready { AreReady self.now }
        requires few { size_by transfer (all_moves self.now) ≤ most_words }
        ensures { result ≡ size_by transfer (all_moves self.now) }
    {
        let mut size = 0;
        for (k, slot) in self.slots.iter().enumerate() {
            size += self.one_size(transfer, *slot, k);
        }
        size
    }
}
