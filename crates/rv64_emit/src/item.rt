// The words of an item, and how many they are.

ghost use Rattle.std.specs.Prelude.{true, ◌≡◌, ◌+◌, ◌<◌, ◌≤◌, ◌++◌, ℕ, map, length, OnOk};
ghost use Rattle.rv64_emit.specs.Moved.{AreMovableAt};
ghost use Rattle.rv64_emit.specs.Placed.{homes_in};
ghost use Rattle.rv64_emit.specs.Tables.{table_at};
ghost use Rattle.rv64_emit_laws.specs.layout.Fits.{ItemFits};
ghost use Rattle.rv64_emit_laws.specs.layout.Items.{item_size, item_words};
ghost use Rattle.rv64_emit_laws.specs.layout.Reach.{is_in_reach};
ghost use Rattle.rv64_words.specs.Encoding.{encoded};
ghost use Rattle.rv64_words.specs.Region.{most_words};

use crate::frame::word_of;
use crate::homes::SlotHomes;
use crate::items::{
    put_alloc, put_binary_item, put_branch, put_call, put_copied, put_free, put_guard, put_jump,
    put_load_item, put_mark, put_print, put_return, put_speculate, put_store_item, put_unary_item,
    put_value,
};
use crate::moves::{Transfer, fetch_size_of, fill_size_of, source_size_of, target_size_of};
use crate::places::place;
use crate::saves::SlotMoves;
use crate::sequences::constant_size_of;
use crate::sizes::{
    after_call_size, before_call_size, binary_item_size, branch_size_of, copied_size_of,
    guard_front_size, jump_size_of, leave_size_of, mark_size_of, print_size_of, returned_size_of,
    unary_item_size,
};
use bril_tree::sequence::Seq;
use slot_code::{SlotFunction, SlotItem};
use std::alloc::AllocError;

/// Appends the words of the item at a point of a function. The tables have the words at which the functions, and the items of
/// this function, begin. Out of memory some of the words may be there.
pub fn put_item(
    code: &mut Seq<u32>,
    starts: &[u32],
    entries: &[u32],
    homes: &SlotHomes<'_>,
    func: &SlotFunction,
    point: u32,
    item: &SlotItem,
) -> Result<(), AllocError>
    requires some_starts { 0 < length starts.now }
    requires few_starts { (k : ℕ) → table_at starts.now k ≤ most_words }
    requires some_entries { 0 < length entries.now }
    requires few_entries { (k : ℕ) → table_at entries.now k ≤ most_words }
    requires movable { AreMovableAt (homes_in homes.now) func.now point }
    requires fits { ItemFits (homes_in homes.now) func.now point item.now }
    requires here { length code.old + item_size (homes_in homes.now) func.now point item.now ≤ most_words }
    requires near { (to : ℕ) → is_in_reach func.now point to ≡ true → (table_at entries.now to ≤ length code.old + 988) × (length code.old ≤ table_at entries.now to + 988) }
    ensures { OnOk result (code.new ≡ code.old ++ map encoded
        (item_words (homes_in homes.now) (table_at starts.now) (table_at entries.now) func.now point (length code.old) item.now)) }
{
    match item {
        SlotItem::Pass => Ok(()),
        SlotItem::Constant { dest, value } => put_value(code, homes.variable(*dest), *value),
        SlotItem::Copy { dest, from } => put_copied(
            code,
            homes,
            homes.home(*dest),
            homes.home(*from),
        ),
        SlotItem::Unary {
            operation,
            dest,
            operand,
        } => put_unary_item(
            code,
            homes,
            *operation,
            homes.variable(*dest),
            homes.variable(*operand),
        ),
        SlotItem::Binary {
            operation,
            dest,
            first,
            second,
        } => {
            put_binary_item(
                code,
                *operation,
                homes.variable(*dest),
                homes.variable(*first),
                homes.variable(*second),
            )
        }
        SlotItem::Jump { to } => put_jump(code, entries, homes, point, *to),
        SlotItem::Branch {
            condition,
            then_to,
            else_to,
        } => {
            put_branch(
                code,
                entries,
                func,
                point,
                homes.variable(*condition),
                *then_to,
                *else_to,
            )
        }
        SlotItem::Call {
            dest,
            function,
            args,
        } => {
            put_call(
                code,
                homes,
                func,
                point,
                *dest,
                *function,
                place(starts, *function),
                args.as_slice(),
            )
        }
        SlotItem::Return { value } => put_return(code, homes, *value),
        SlotItem::Print { args } => put_print(code, homes, args.as_slice()),
        SlotItem::Alloc { dest, count } => put_alloc(
            code,
            homes.variable(*dest),
            homes.variable(*count),
        ),
        SlotItem::Free { pointer } => put_free(code, homes.variable(*pointer)),
        SlotItem::Store { pointer, value } => put_store_item(
            code,
            homes.variable(*pointer),
            homes.variable(*value),
        ),
        SlotItem::Load { dest, pointer } => put_load_item(
            code,
            homes.variable(*dest),
            homes.variable(*pointer),
        ),
        SlotItem::Speculate => put_speculate(code, homes, func, point),
        SlotItem::Commit => put_mark(code, homes),
        SlotItem::Guard {
            condition,
            abort_to,
        } => {
            put_guard(
                code,
                homes,
                func,
                point,
                *condition,
                *abort_to,
                place(entries, *abort_to),
            )
        }
    }
}

/// How many words the item at a point of a function has.
pub fn size_of(homes: &SlotHomes<'_>, func: &SlotFunction, point: u32, item: &SlotItem) -> u32
    requires movable { AreMovableAt (homes_in homes.now) func.now point }
    requires fits { ItemFits (homes_in homes.now) func.now point item.now }
    requires few { item_size (homes_in homes.now) func.now point item.now ≤ most_words }
    ensures { result ≡ item_size (homes_in homes.now) func.now point item.now }
{
    match item {
        SlotItem::Pass => 0,
        SlotItem::Constant { dest, value } => constant_size_of(word_of(*value))
            + target_size_of(homes.variable(*dest)),
        SlotItem::Copy { dest, from } => copied_size_of(
            homes,
            homes.home(*dest),
            homes.home(*from),
        ),
        SlotItem::Unary {
            operation,
            dest,
            operand,
        } => {
            unary_item_size(
                homes,
                *operation,
                homes.variable(*dest),
                homes.variable(*operand),
            )
        }
        SlotItem::Binary {
            operation,
            dest,
            first,
            second,
        } => {
            binary_item_size(
                *operation,
                homes.variable(*dest),
                homes.variable(*first),
                homes.variable(*second),
            )
        }
        SlotItem::Jump { to } => jump_size_of(homes, point, *to),
        SlotItem::Branch {
            condition,
            then_to,
            else_to,
        } => {
            source_size_of(homes.variable(*condition))
                + branch_size_of(func, point, *then_to, *else_to)
        }
        SlotItem::Call {
            dest,
            function,
            args,
        } => before_call_size(homes, func, point, *dest, *function, args.as_slice())
            + 1
            + after_call_size(homes, func, point, *dest),
        SlotItem::Return { value } => returned_size_of(homes, *value) + leave_size_of(homes),
        SlotItem::Print { args } => print_size_of(homes, args.as_slice()),
        SlotItem::Alloc { dest, count } => fetch_size_of(homes.variable(*count))
            + 2
            + fill_size_of(homes.variable(*dest)),
        SlotItem::Free { pointer } => fetch_size_of(homes.variable(*pointer)) + 2,
        SlotItem::Store { pointer, value } => fetch_size_of(homes.variable(*pointer))
            + 17
            + source_size_of(homes.variable(*value)),
        SlotItem::Load { dest, pointer } => fetch_size_of(homes.variable(*pointer))
            + 20
            + target_size_of(homes.variable(*dest)),
        SlotItem::Speculate => {
            SlotMoves::kept(homes, func, point).size(Transfer::Save) + mark_size_of(homes)
        }
        SlotItem::Commit => mark_size_of(homes),
        SlotItem::Guard {
            condition,
            abort_to,
        } => { guard_front_size(homes, func, point, *condition, *abort_to) + 1 }
    }
}
