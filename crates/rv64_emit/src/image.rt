// The image of code over slots.

ghost use Rattle.std.specs.Prelude.{◌≡◌, ◌+◌, ◌*◌, ◌<◌, ◌≤◌, ◌++◌, map, length, OnOk, IfOk};
ghost use Rattle.rv64_emit.specs.Moved.{AreMovableAt};
ghost use Rattle.rv64_emit.specs.SlotMoves.{AreReady, all_moves};
ghost use Rattle.rv64_words_laws.specs.sequences.Moves.{restore_size};
ghost use Rattle.rv64_emit.specs.Placed.{all_homes, homes_in};
ghost use Rattle.rv64_emit.specs.Tables as tables;
ghost use Rattle.rv64_emit.specs.Tables.{SlotsFit, guard_with};
ghost use Rattle.rv64_emit_laws.specs.layout.Image.{joined, start_at, first_start, head_words, function_words_at, function_guards_at, largest_frame, IsImageOf};
ghost use Rattle.rv64_emit_laws.specs.layout.Items as layout;
ghost use Rattle.rv64_words.specs.Encoding.{encoded};
ghost use Rattle.rv64_words.specs.Region.{most_words};

use crate::assembly::{addi, lui};
use crate::homes::{ProgramHomes, SlotHomes};
use crate::item::put_item;
use crate::items::{put_keep_way, put_leave};
use crate::moves::Transfer;
use crate::places::{function_at, main_moves_of, place, tables_of};
use crate::registers::{FRAMES_LEFT, LINK};
use crate::saves::SlotMoves;
use crate::sequences::{high_digits, jump, low_digit, program_end, put};
use crate::sizes::guard_front_size;
use bril_tree::limits::Limits;
use bril_tree::sequence::Seq;
use rv64_words::image::{GuardAt, Image};
use slot_code::{SlotFunction, SlotItem, Slots};
use std::alloc::{AllocError, Global};

// ---- words

// The first words: how many frames may be made beside that of `main`, its arguments into registers, its call, and the program's end.
#[tactic(auto, using(crate::proofs::Appending::put_then))]
fn put_head(
    code: &mut Seq<u32>,
    limits: Limits,
    moves: &SlotMoves<'_>,
    main: u32,
) -> Result<(), AllocError>
    requires ready { AreReady moves.now }
    requires few { 2 + restore_size (all_moves moves.now) ≤ most_words }
    requires main { main ≤ most_words }
    ensures { OnOk result (code.new ≡ code.old ++ map encoded (head_words limits (all_moves moves.now) main)) }
{
    let frames = limits.frames as u64 - 1;
    let at = 2 + moves.size(Transfer::Restore);
    put(
        code,
        &[
            lui(FRAMES_LEFT, high_digits(frames) as u32),
            addi(FRAMES_LEFT, FRAMES_LEFT, low_digit(frames)),
        ],
    )?;
    moves.put(code, Transfer::Restore)?;
    put(code, &[jump(LINK, at, main)])?;
    put(code, &program_end())
}

// The words of a function.
fn put_function(
    code: &mut Seq<u32>,
    homes: &ProgramHomes<'_>,
    slots: &Slots,
    number: usize,
    starts: &[u32],
    entries: &[u32],
) -> Result<(), AllocError>
    requires inside { number < length slots.now.funcs }
    requires fits { SlotsFit (all_homes homes.now) slots.now }
    requires starts { starts.now ≡ tables.start_table (all_homes homes.now) slots.now }
    requires entries { entries.now ≡ tables.entry_table (all_homes homes.now) slots.now number }
    requires here { length code.old ≡ start_at (all_homes homes.now) slots.now number }
    ensures { OnOk result (code.new ≡ code.old ++ map encoded (function_words_at (all_homes homes.now) slots.now number)) }
{
    let func = function_at(slots, number);
    let own = homes.in_function(number as u32);
    put_keep_way(code, &own)?;
    for (point, item) in func.code.as_slice().iter().enumerate() {
        put_item(code, starts, entries, &own, func, point as u32, item)?;
    }
    put_leave(code, &own)?;
    Ok(())
}

// ---- guards

// The item at a place as a guard, if it is one.
fn push_guard(
    guards: &mut Seq<GuardAt>,
    homes: &SlotHomes<'_>,
    func: &SlotFunction,
    place: GuardAt,
    item: &SlotItem,
) -> Result<(), AllocError>
    requires movable { AreMovableAt (homes_in homes.now) func.now place.item }
    requires few { place.word + layout.item_size (homes_in homes.now) func.now place.item item.now ≤ most_words }
    ensures { OnOk result (guards.new ≡ guards.old ++ guard_with (homes_in homes.now) place.word place.func func.now place.item item.now) }
{
    match item {
        SlotItem::Guard {
            condition,
            abort_to,
        } => {
            let front = guard_front_size(homes, func, place.item, *condition, *abort_to);
            let word = place.word + front;
            guards.push(GuardAt { word, ..place })
        }
        _ => Ok(()),
    }
}

// The guards of a function.
fn push_guards(
    guards: &mut Seq<GuardAt>,
    homes: &ProgramHomes<'_>,
    slots: &Slots,
    number: usize,
    entries: &[u32],
) -> Result<(), AllocError>
    requires inside { number < length slots.now.funcs }
    requires fits { SlotsFit (all_homes homes.now) slots.now }
    requires entries { entries.now ≡ tables.entry_table (all_homes homes.now) slots.now number }
    ensures { OnOk result (guards.new ≡ guards.old ++ function_guards_at (all_homes homes.now) slots.now number) }
{
    let func = function_at(slots, number);
    let own = homes.in_function(number as u32);
    for (point, item) in func.code.as_slice().iter().enumerate() {
        let place = GuardAt {
            word: place(entries, point as u32),
            func: number as u32,
            item: point as u32,
        };
        push_guard(guards, &own, func, place, item)?;
    }
    Ok(())
}

// ---- the image

// The words and the guards of all functions.
fn put_functions(
    code: &mut Seq<u32>,
    guards: &mut Seq<GuardAt>,
    homes: &ProgramHomes<'_>,
    slots: &Slots,
    starts: &[u32],
    entries: &[Seq<u32>],
) -> Result<(), AllocError>
    requires fits { SlotsFit (all_homes homes.now) slots.now }
    requires starts { starts.now ≡ tables.start_table (all_homes homes.now) slots.now }
    requires entries { entries.now ≡ tables.entry_tables (all_homes homes.now) slots.now }
    requires here { length code.old ≡ first_start (all_homes homes.now) slots.now }
    ensures words { OnOk result (code.new ≡ code.old ++ map encoded (joined (function_words_at (all_homes homes.now) slots.now) (length slots.now.funcs))) }
    ensures guards { OnOk result (guards.new ≡ guards.old ++ joined (function_guards_at (all_homes homes.now) slots.now) (length slots.now.funcs)) }
{
    for (number, own) in entries.iter().enumerate() {
        put_function(code, homes, slots, number, starts, own.as_slice())?;
        push_guards(guards, homes, slots, number, own.as_slice())?;
    }
    Ok(())
}

/// The image of code over slots, by the homes of its slots, for runs under the limits, with a stack of so many words.
pub fn image_of(
    alloc: Global,
    homes: &ProgramHomes<'_>,
    slots: &Slots,
    limits: Limits,
    stack: u32,
) -> Result<Image, AllocError>
    requires fits { SlotsFit (all_homes homes.now) slots.now }
    requires stack { stack ≡ limits.frames * largest_frame slots.now }
    ensures { IfOk result (IsImageOf (all_homes homes.now) slots.now limits) }
{
    let tables = tables_of(alloc, homes, slots)?;
    let starts = tables.starts.as_slice();
    let mut words = Seq::new(alloc);
    put_head(
        &mut words,
        limits,
        &main_moves_of(homes, slots),
        place(starts, slots.main),
    )?;
    let mut guards = Seq::new(alloc);
    put_functions(
        &mut words,
        &mut guards,
        homes,
        slots,
        starts,
        tables.entries.as_slice(),
    )?;
    Ok(Image {
        words,
        guards,
        stack,
    })
}
