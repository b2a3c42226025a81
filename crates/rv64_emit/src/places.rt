// Tables of the words at which functions and items begin.

ghost use Rattle.std.specs.Prelude.{◌≡◌, ◌+◌, ◌-◌, ◌<◌, ◌≤◌, ℕ, Some, length, slice_get, IfOk};
ghost use Rattle.rv64_emit.specs.Tables as tables;
ghost use Rattle.rv64_emit.specs.Tables.{SlotsFit, table_at};
ghost use Rattle.rv64_emit.specs.SlotMoves.{AreReady, all_moves};
ghost use Rattle.rv64_emit.specs.Placed.{all_homes};
ghost use Rattle.rv64_emit_laws.specs.layout.Image.{first_start, main_moves, start_at};
ghost use Rattle.rv64_words.specs.Region.{most_words};

use crate::homes::ProgramHomes;
use crate::item::size_of;
use crate::moves::Transfer;
use crate::saves::SlotMoves;
use crate::sizes::{keep_way_size_of, leave_size_of};
use bril_tree::sequence::Seq;
use slot_code::{SlotFunction, Slots};
use std::alloc::{AllocError, Global};

/// Where the functions of a program begin, and the items of each.
#[derive(Drop)]
pub struct Tables {
    /// Where each function begins, and at last where the image ends.
    pub starts: Seq<u32>,
    /// Of each function, where each item begins, and at last the words that leave the function.
    pub entries: Seq<Seq<u32>>,
}

/// What a table has for a number, and past its end what it has last.
pub fn place(table: &[u32], index: u32) -> u32
    requires some { 0 < length table.now }
    requires few { (k : ℕ) → table_at table.now k ≤ most_words }
    ensures value { result ≡ table_at table.now index }
    ensures few { result ≤ most_words }
{
    let last = table.len() - 1;
    table[last.min(index as usize)]
}

/// The function of a number.
pub fn function_at(slots: &Slots, number: usize) -> &SlotFunction
    requires { number < length slots.now.funcs }
    ensures { slice_get slots.now.funcs number ≡ Some result.now }
{
    &slots.funcs.as_slice()[number]
}

/// What brings the arguments of `main` into registers.
pub fn main_moves_of<'a>(homes: &ProgramHomes<'a>, slots: &'a Slots) -> SlotMoves<'a>
    requires { SlotsFit (all_homes homes.now) slots.now }
    ensures moves { all_moves result ≡ main_moves (all_homes homes.now) slots.now }
    ensures ready { AreReady result }
{
    let own = homes.in_function(slots.main);
    SlotMoves::loaded(&own, function_at(slots, slots.main as usize))
}

// Where the first function begins.
fn first_start_of(homes: &ProgramHomes<'_>, slots: &Slots) -> u32
    requires { SlotsFit (all_homes homes.now) slots.now }
    ensures value { result ≡ first_start (all_homes homes.now) slots.now }
{
    6 + main_moves_of(homes, slots).size(Transfer::Restore)
}

// Where each item of a function begins whose first word is `start`, and at last the words that leave the function.
fn entry_table(
    alloc: Global,
    homes: &ProgramHomes<'_>,
    slots: &Slots,
    number: usize,
    start: u32,
) -> Result<Seq<u32>, AllocError>
    requires inside { number < length slots.now.funcs }
    requires fits { SlotsFit (all_homes homes.now) slots.now }
    requires start { start ≡ start_at (all_homes homes.now) slots.now number }
    ensures { IfOk result (λ entries. entries ≡ tables.entry_table (all_homes homes.now) slots.now number) }
{
    let func = function_at(slots, number);
    let own = homes.in_function(number as u32);
    let mut entries = Seq::new(alloc);
    let mut at = start + keep_way_size_of(&own);
    for (point, item) in func.code.as_slice().iter().enumerate() {
        entries.push(at)?;
        at += size_of(&own, func, point as u32, item);
    }
    entries.push(at)?;
    Ok(entries)
}

// What a table has last.
fn last_of(table: &[u32]) -> u32
    requires { 0 < length table.now }
    ensures { result ≡ table_at table.now (length table.now - 1) }
{
    table[table.len() - 1]
}

/// The tables of a program.
pub fn tables_of(
    alloc: Global,
    homes: &ProgramHomes<'_>,
    slots: &Slots,
) -> Result<Tables, AllocError>
    requires { SlotsFit (all_homes homes.now) slots.now }
    ensures starts { IfOk result (λ t. t.starts ≡ tables.start_table (all_homes homes.now) slots.now) }
    ensures entries { IfOk result (λ t. t.entries ≡ tables.entry_tables (all_homes homes.now) slots.now) }
{
    let mut starts = Seq::new(alloc);
    let mut entries = Seq::new(alloc);
    let mut at = first_start_of(homes, slots);
    for number in 0..slots.funcs.as_slice().len() {
        starts.push(at)?;
        let own = entry_table(alloc, homes, slots, number, at)?;
        let here = homes.in_function(number as u32);
        at = last_of(own.as_slice()) + leave_size_of(&here);
        entries.push(own)?;
    }
    starts.push(at)?;
    Ok(Tables { starts, entries })
}
