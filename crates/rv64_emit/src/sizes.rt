// How many words items have.

ghost use Rattle.std.specs.Prelude.{◌≡◌, ◌+◌, ◌-◌, ◌*◌, ◌^◌, ◌≤◌, ◌<◌, ℕ, Some, length, min, nat_le, take, drop};
ghost use Rattle.bril_tree.specs.declared.home.Home.TheVariants.{Reg};
ghost use Rattle.std.specs.List.{AllByRecursion};
ghost use Rattle.rv64_emit.specs.Moved.{AreMovableAt};
ghost use Rattle.rv64_emit.specs.Placed.{homes_in};
ghost use Rattle.rv64_emit_laws.specs.layout.Fits.{IsReached, frame_reach};
ghost use Rattle.rv64_emit_laws.specs.layout.Homes.{variable_home};
ghost use Rattle.rv64_emit_laws.specs.layout.Items as items;
ghost use Rattle.rv64_emit_laws.specs.layout.Passing.{pass_size};
ghost use Rattle.rv64_emit_laws.specs.layout.Reach as reach;
ghost use Rattle.rv64_words_laws.specs.sequences.Moves as moves;
ghost use Rattle.rv64_words_laws.specs.sequences.Operations.{unary_size, unary_takes_any};
ghost use Rattle.rv64_words.specs.Region.{most_words};

use crate::frame::{bytes_down, bytes_up};
use crate::homes::SlotHomes;
use crate::moves::{
    Transfer, copy_size_of, fetch_size_of, fill_size_of, operand_size_of, result_size_of,
    source_size_of,
};
use crate::operations::{
    binary_size_of, binary_takes_any_registers, unary_size_of, unary_takes_any_register,
};
use crate::passing::{Part, size_of_part};
use crate::saves::SlotMoves;
use crate::sequences::frame_by_size_of;
use bril_tree::home::Home;
use bril_tree::operators::{BinaryOp, UnaryOp};
use slot_code::{Printed, SlotFunction, SlotItem};

// ---- items for which nothing is to be done

/// How many words such an item has.
pub fn mark_size_of(homes: &SlotHomes<'_>) -> u32
    ensures value { result ≡ items.mark_size (homes_in homes.now) }
    ensures few { result ≤ 1 }
{
    if homes.is_marked() { 1 } else { 0 }
}

/// Whether two homes are one.
pub fn is_same_home(dest: Home, from: Home) -> bool
    ensures { result ≡ items.same_home dest from }
{
    match (dest, from) {
        (Home::Reg(a), Home::Reg(b)) => a == b,
        (Home::Frame(a), Home::Frame(b)) => a == b,
        (Home::Reg(_), Home::Frame(_)) => false,
        (Home::Frame(_), Home::Reg(_)) => false,
    }
}

/// How many words bring what one home has into another, or mark that the two are one.
pub fn copied_size_of(homes: &SlotHomes<'_>, dest: Home, from: Home) -> u32
    ensures value { result ≡ items.copied_size (homes_in homes.now) dest from }
    ensures few { result ≤ 6 }
{
    if is_same_home(dest, from) {
        mark_size_of(homes)
    } else {
        copy_size_of(dest, from)
    }
}

// ---- operations

// How many words compute from one home into another, with words of their own.
fn computed_size(operation: UnaryOp, dest: Home, operand: Home) -> u32
    ensures value { let any = unary_takes_any operation in result ≡ moves.operand_size any operand + (unary_size operation + moves.result_size any dest) }
    ensures few { result ≤ 14 }
{
    let any = unary_takes_any_register(operation);
    operand_size_of(any, operand) + unary_size_of(operation) + result_size_of(any, dest)
}

/// How many words compute from one home into another.
pub fn unary_item_size(homes: &SlotHomes<'_>, operation: UnaryOp, dest: Home, operand: Home) -> u32
    ensures value { result ≡ items.unary_item_size (homes_in homes.now) operation dest operand }
    ensures few { result ≤ 14 }
{
    match operation {
        UnaryOp::CharToInt => copied_size_of(homes, dest, operand),
        UnaryOp::Not => computed_size(UnaryOp::Not, dest, operand),
        UnaryOp::IntToChar => computed_size(UnaryOp::IntToChar, dest, operand),
    }
}

/// How many words compute from two homes into a third.
pub fn binary_item_size(operation: BinaryOp, dest: Home, first: Home, second: Home) -> u32
    ensures value { result ≡ items.binary_item_size operation dest first second }
    ensures few { result ≤ 23 }
{
    let any = binary_takes_any_registers(operation);
    operand_size_of(any, first)
        + operand_size_of(any, second)
        + binary_size_of(operation)
        + result_size_of(any, dest)
}

// ---- items that one branch reaches

// So many words and six for each of a count, or 1000 where that is more.
fn with_each(words: usize, count: usize) -> usize
    requires { words ≤ 64 }
    ensures { result ≡ min 1000 (words + 6 * count) }
{
    (words + 6 * count.min(1000)).min(1000)
}

// The most words of an item, in a function of so many slots, or 1000 where they are more.
fn item_counts(slots: usize, item: &SlotItem) -> usize
    ensures value { result ≡ reach.item_counts slots item.now }
    ensures few { result ≤ 1000 }
{
    match item {
        SlotItem::Pass => 0,
        SlotItem::Constant { .. } => 11,
        SlotItem::Copy { .. } => 6,
        SlotItem::Unary { operation, .. } => 6 + unary_size_of(*operation) as usize,
        SlotItem::Binary { operation, .. } => 9 + binary_size_of(*operation) as usize,
        SlotItem::Jump { .. } => 1,
        SlotItem::Branch { .. } => 6,
        SlotItem::Call { args, .. } => with_each(61, args.as_slice().len()),
        SlotItem::Return { .. } => 6,
        SlotItem::Print { args } => (2 + 7 * args.as_slice().len().min(1000)).min(1000),
        SlotItem::Alloc { .. } => 8,
        SlotItem::Free { .. } => 5,
        SlotItem::Store { .. } => 23,
        SlotItem::Load { .. } => 26,
        SlotItem::Speculate => with_each(1, slots),
        SlotItem::Commit => 1,
        SlotItem::Guard { .. } => with_each(6, slots),
    }
}

// The items of a function from one on: none past the last.
fn items_from(func: &SlotFunction, from: u32) -> &[SlotItem]
    ensures { result.now ≡ drop from func.now.code }
{
    let code = func.code.as_slice();
    let start = (from as usize).min(code.len());
    &code[start..]
}

// So many items, or all where they are fewer.
fn first_items(items: &[SlotItem], count: u32) -> &[SlotItem]
    ensures { result.now ≡ take count items.now }
{
    let many = (count as usize).min(items.len());
    &items[..many]
}

// Whether these items count at most 988 words.
fn are_few(slots: usize, items: &[SlotItem]) -> bool
    ensures { result ≡ nat_le (reach.items_count slots items.now) 988 }
{
    let mut left = 988;
    for item in items {
        let counts = item_counts(slots, item);
        if counts > left {
            return false;
        }
        left -= counts;
    }
    true
}

// Whether at most 256 items are between two, the first of these among them, which count at most 988 words.
fn is_close(func: &SlotFunction, from: u32, to: u32) -> bool
    requires { from ≤ to }
    ensures { result ≡ reach.is_close func.now from to }
{
    let count = to - from;
    if count > 256 {
        return false;
    }
    are_few(
        func.slots.as_slice().len(),
        first_items(items_from(func, from), count),
    )
}

/// Whether a branch at a point reaches an item.
pub fn is_in_reach(func: &SlotFunction, point: u32, to: u32) -> bool
    ensures { result ≡ reach.is_in_reach func.now point to }
{
    if point < to {
        is_close(func, point, to)
    } else {
        is_close(func, to, point)
    }
}

// ---- jumps and branches

/// Whether an item is the one behind that at a point.
pub fn is_next(point: u32, to: u32) -> bool
    requires { point < 2 ^ 32 - 1 }
    ensures { result ≡ items.is_next point to }
{
    to == point + 1
}

/// How many words the jump at a point has.
pub fn jump_size_of(homes: &SlotHomes<'_>, point: u32, to: u32) -> u32
    requires { point < 2 ^ 32 - 1 }
    ensures value { result ≡ items.jump_size (homes_in homes.now) point to }
    ensures few { result ≤ 1 }
{
    if is_next(point, to) {
        mark_size_of(homes)
    } else {
        1
    }
}

// How many words lead from a point to an item, or on.
fn way_size_of(func: &SlotFunction, point: u32, to: u32) -> u32
    ensures value { result ≡ items.way_size func.now point to }
    ensures few { result ≤ 2 }
{
    if is_in_reach(func, point, to) { 1 } else { 2 }
}

/// How many words of the branch at a point come behind those of its condition.
pub fn branch_size_of(func: &SlotFunction, point: u32, then_to: u32, else_to: u32) -> u32
    requires { point < 2 ^ 32 - 1 }
    ensures value { result ≡ items.branch_size func.now point then_to else_to }
    ensures few { result ≤ 3 }
{
    if is_next(point, else_to) {
        return way_size_of(func, point, then_to);
    }
    if is_next(point, then_to) {
        return way_size_of(func, point, else_to);
    }
    3
}

// ---- calls and returns

// How many words pass the arguments of a call of the function of a number.
fn pass_size_of(homes: &SlotHomes<'_>, func: &SlotFunction, function: u32, args: &[u32]) -> u32
    requires frame { func.now.words < frame_reach }
    requires few { length args.now < frame_reach }
    requires args { AllByRecursion (λ x. IsReached (variable_home (homes_in homes.now) x)) args.now }
    requires given { (k r : ℕ) → (homes_in homes.now).given function k ≡ Some (Reg r) → r < 32 }
    ensures value { result ≡ pass_size (homes_in homes.now) func.now function args.now }
    ensures few { result ≤ 18 * length args.now }
{
    size_of_part(Part::Stores, homes, func, function, args)
        + size_of_part(Part::Copies, homes, func, function, args)
        + size_of_part(Part::Loads, homes, func, function, args)
}

/// How many words of the call at a point come before its jump.
pub fn before_call_size(
    homes: &SlotHomes<'_>,
    func: &SlotFunction,
    point: u32,
    dest: Option<u32>,
    function: u32,
    args: &[u32],
) -> u32
    requires frame { func.now.words < frame_reach }
    requires passed { length args.now < frame_reach }
    requires movable { AreMovableAt (homes_in homes.now) func.now point }
    requires args { AllByRecursion (λ x. IsReached (variable_home (homes_in homes.now) x)) args.now }
    requires given { (k r : ℕ) → (homes_in homes.now).given function k ≡ Some (Reg r) → r < 32 }
    requires few { items.before_call (homes_in homes.now) func.now point dest function args.now ≤ most_words }
    ensures { result ≡ items.before_call (homes_in homes.now) func.now point dest function args.now }
{
    let saves = SlotMoves::outliving(homes, func, point, dest).size(Transfer::Save);
    5 + saves + pass_size_of(homes, func, function, args) + frame_by_size_of(bytes_up(func))
}

// How many words store the result of a call.
fn call_result_size_of(homes: &SlotHomes<'_>, dest: Option<u32>) -> u32
    ensures value { result ≡ items.call_result_size (homes_in homes.now) dest }
    ensures few { result ≤ 3 }
{
    match dest {
        Some(dest) => fill_size_of(homes.variable(dest)),
        None => 0,
    }
}

/// How many words of the call at a point come after its jump.
pub fn after_call_size(
    homes: &SlotHomes<'_>,
    func: &SlotFunction,
    point: u32,
    dest: Option<u32>,
) -> u32
    requires frame { func.now.words < frame_reach }
    requires movable { AreMovableAt (homes_in homes.now) func.now point }
    requires few { items.after_call_size (homes_in homes.now) func.now point dest ≤ most_words }
    ensures { result ≡ items.after_call_size (homes_in homes.now) func.now point dest }
{
    let restores = SlotMoves::outliving(homes, func, point, dest).size(Transfer::Restore);
    frame_by_size_of(bytes_down(func)) + restores + call_result_size_of(homes, dest)
}

/// How many words keep the way back, or take it.
pub fn keep_way_size_of(homes: &SlotHomes<'_>) -> u32
    ensures value { result ≡ items.keep_way_size (homes_in homes.now) }
    ensures few { result ≤ 1 }
{
    if homes.is_leaf() { 0 } else { 1 }
}

/// How many words leave a function.
pub fn leave_size_of(homes: &SlotHomes<'_>) -> u32
    ensures value { result ≡ items.leave_size (homes_in homes.now) }
    ensures few { result ≤ 3 }
{
    keep_way_size_of(homes) + 2
}

/// How many words bring a returned value.
pub fn returned_size_of(homes: &SlotHomes<'_>, value: Option<u32>) -> u32
    ensures value { result ≡ items.returned_size (homes_in homes.now) value }
    ensures few { result ≤ 3 }
{
    match value {
        Some(variable) => fetch_size_of(homes.variable(variable)),
        None => 0,
    }
}

// ---- output

// How many words a variable that is printed has.
fn printed_size(homes: &SlotHomes<'_>, printed: Printed) -> u32
    ensures value { result ≡ 2 + moves.fetch_size (variable_home (homes_in homes.now) printed.variable) }
    ensures few { result ≤ 5 }
{
    2 + fetch_size_of(homes.variable(printed.variable))
}

// How many words variables have that are printed, each after a space.
fn spaced_size_of(homes: &SlotHomes<'_>, args: &[Printed]) -> u32
    requires { items.spaced_size (homes_in homes.now) args.now ≤ most_words }
    ensures { result ≡ items.spaced_size (homes_in homes.now) args.now }
{
    let mut size = 0;
    for arg in args {
        size += 2 + printed_size(homes, *arg);
    }
    size
}

/// How many words a print has.
pub fn print_size_of(homes: &SlotHomes<'_>, args: &[Printed]) -> u32
    requires { items.print_size (homes_in homes.now) args.now ≤ most_words }
    ensures { result ≡ items.print_size (homes_in homes.now) args.now }
{
    match args {
        [] => 2,
        [first, rest @ ..] => 2 + printed_size(homes, *first) + spaced_size_of(homes, rest),
    }
}

// ---- speculation

/// Whether one branch leads over so many words: it reaches 4 KiB.
pub fn reaches_over(count: u32) -> bool
    ensures { result ≡ items.reaches_over count }
{
    count < 1023
}

// How many words lead over so many.
fn skip_size_of(count: u32) -> u32
    ensures value { result ≡ items.skip_size count }
    ensures few { result ≤ 2 }
{
    if reaches_over(count) { 1 } else { 2 }
}

/// How many words of the guard at a point come before its last.
pub fn guard_front_size(
    homes: &SlotHomes<'_>,
    func: &SlotFunction,
    point: u32,
    condition: u32,
    label: u32,
) -> u32
    requires movable { AreMovableAt (homes_in homes.now) func.now point }
    requires few { items.guard_front_size (homes_in homes.now) func.now point condition label ≤ most_words }
    ensures { result ≡ items.guard_front_size (homes_in homes.now) func.now point condition label }
{
    let back = SlotMoves::taken_back(homes, func, point, label).size(Transfer::Restore);
    source_size_of(homes.variable(condition)) + skip_size_of(1 + back) + back
}
