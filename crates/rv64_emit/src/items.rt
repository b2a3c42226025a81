// The words of items at the end of an image.

ghost use Rattle.std.specs.Prelude.{ℕ, Some, true, suc, ◌≤ℤ◌, ◌<ℤ◌, neg_ℤ, ◌≡◌, ◌+◌, ◌-◌, ◌*◌, ◌%◌, ◌^◌, ◌<◌, ◌≤◌, ◌∷◌, [], ◌++◌, map, pos, length, OnOk};
ghost use Rattle.std.specs.List.{AllByRecursion};
ghost use Rattle.bril_tree.specs.FunctionForm.{listed};
ghost use Rattle.bril_tree.specs.declared.home.Home.TheVariants.{Reg};
ghost use Rattle.bril_tree.specs.Value as values;
ghost use Rattle.rv64_emit.specs.Moved.{AreMovableAt};
ghost use Rattle.rv64_emit.specs.Placed.{homes_in};
ghost use Rattle.rv64_emit.specs.Tables.{table_at};
ghost use Rattle.rv64_emit_laws.specs.layout.Fits.{IsReached, frame_reach};
ghost use Rattle.rv64_emit_laws.specs.layout.Homes.{speculate_moves, variable_home};
ghost use Rattle.rv64_emit_laws.specs.layout.Items as items;
ghost use Rattle.rv64_emit_laws.specs.layout.Passing.{pass_words};
ghost use Rattle.rv64_emit_laws.specs.layout.Reach as reach;
ghost use Rattle.rv64_words_laws.specs.sequences.Moves as moves;
ghost use Rattle.rv64_words_laws.specs.sequences.Operations as operations;
ghost use Rattle.rv64_words_laws.specs.sequences.Sequences.{constant_words, jump_offset, store_words};
ghost use Rattle.rv64_words.specs.Calls.{call_number};
ghost use Rattle.rv64_words.specs.Encoding.{encoded};
ghost use Rattle.rv64_words.specs.Fields.{bits_13};
ghost use Rattle.rv64_words.specs.Mnemonics as mnemonics;
ghost use Rattle.rv64_words.specs.Region.{most_words};

use crate::assembly::{addi, branch, jalr, ld, sd};
use crate::frame::{bytes_down, bytes_up, word_of};
use crate::homes::SlotHomes;
use crate::moves::{
    Transfer, operand_register, put_copy, put_fetch, put_fill, put_operand, put_result, put_source,
    put_target, register_for, source_size_of,
};
use crate::operations::{
    binary_takes_any_registers, put_binary, put_cell, put_load_cell, put_mark_cell, put_store_cell,
    put_unary, unary_takes_any_register,
};
use crate::passing::{Part, put_part};
use crate::places::place;
use crate::registers::{ARGUMENT, FIRST, FRAME, FRAMES_LEFT, LINK, SECOND, ZERO};
use crate::saves::SlotMoves;
use crate::sequences::{environment_call, fault, jump, number, put, put_constant, put_frame_by};
use crate::sizes::{
    before_call_size, guard_front_size, is_in_reach, is_next, is_same_home, reaches_over,
};
use bril_tree::home::Home;
use bril_tree::limits::Fault;
use bril_tree::operators::{BinaryOp, UnaryOp};
use bril_tree::sequence::Seq;
use bril_tree::types::Base;
use bril_tree::value::Value;
use rv64_words::call::Call;
use rv64_words::field::Immediate;
use rv64_words::word::{Condition, Word};
use slot_code::{Printed, SlotFunction};
use std::alloc::AllocError;

// ---- items for which nothing is to be done

// The word that does nothing.
fn nop() -> Word
    ensures { result ≡ items.nop_word }
{
    addi(ZERO, ZERO, number(0))
}

/// The word of such an item, where items are marked, else none.
pub fn put_mark(code: &mut Seq<u32>, homes: &SlotHomes<'_>) -> Result<(), AllocError>
    ensures { OnOk result (code.new ≡ code.old ++ map encoded (items.mark_words (homes_in homes.now))) }
{
    if homes.is_marked() {
        return put(code, &[nop()]);
    }
    Ok(())
}

/// What one home has into another: nothing is to be done where the two are one.
pub fn put_copied(
    code: &mut Seq<u32>,
    homes: &SlotHomes<'_>,
    dest: Home,
    from: Home,
) -> Result<(), AllocError>
    requires dest { IsReached dest }
    requires from { IsReached from }
    ensures { OnOk result (code.new ≡ code.old ++ map encoded (items.copied_words (homes_in homes.now) dest from)) }
{
    if is_same_home(dest, from) {
        return put_mark(code, homes);
    }
    put_copy(code, dest, from)
}

// ---- values

/// A value into a home.
#[tactic(auto, using(crate::proofs::Appending::put_then))]
pub fn put_value(code: &mut Seq<u32>, dest: Home, value: Value) -> Result<(), AllocError>
    requires { IsReached dest }
    ensures { OnOk result (code.new ≡ code.old ++ map encoded
        (constant_words (moves.register_for 5 dest) (values.word_of value) ++ moves.target_words 5 dest)) }
{
    put_constant(code, register_for(FIRST, dest), word_of(value))?;
    put_target(code, FIRST, dest)
}

// What an operation computes from one home into another, with words of its own.
#[tactic(auto, using(crate::proofs::Appending::put_then))]
fn put_computed(
    code: &mut Seq<u32>,
    operation: UnaryOp,
    dest: Home,
    operand: Home,
) -> Result<(), AllocError>
    requires dest { IsReached dest }
    requires operand { IsReached operand }
    ensures { let any = operations.unary_takes_any operation in OnOk result (code.new ≡ code.old ++ map encoded
        (moves.operand_words any 5 operand ++ (operations.unary_words operation (moves.result_register any dest) (moves.operand_register any 5 operand) ++ moves.result_words any dest))) }
{
    let any = unary_takes_any_register(operation);
    put_operand(code, any, FIRST, operand)?;
    put_unary(
        code,
        operation,
        operand_register(any, FIRST, dest),
        operand_register(any, FIRST, operand),
    )?;
    put_result(code, any, dest)
}

/// What an operation computes from one home into another.
pub fn put_unary_item(
    code: &mut Seq<u32>,
    homes: &SlotHomes<'_>,
    operation: UnaryOp,
    dest: Home,
    operand: Home,
) -> Result<(), AllocError>
    requires dest { IsReached dest }
    requires operand { IsReached operand }
    ensures { OnOk result (code.new ≡ code.old ++ map encoded (items.unary_item_words (homes_in homes.now) operation dest operand)) }
{
    match operation {
        UnaryOp::CharToInt => put_copied(code, homes, dest, operand),
        UnaryOp::Not => put_computed(code, UnaryOp::Not, dest, operand),
        UnaryOp::IntToChar => put_computed(code, UnaryOp::IntToChar, dest, operand),
    }
}

/// What an operation computes from two homes into a third.
#[tactic(auto, using(crate::proofs::Appending::put_then))]
pub fn put_binary_item(
    code: &mut Seq<u32>,
    operation: BinaryOp,
    dest: Home,
    first: Home,
    second: Home,
) -> Result<(), AllocError>
    requires dest { IsReached dest }
    requires first { IsReached first }
    requires second { IsReached second }
    ensures { OnOk result (code.new ≡ code.old ++ map encoded (items.binary_item_words operation dest first second)) }
{
    let any = binary_takes_any_registers(operation);
    put_operand(code, any, FIRST, first)?;
    put_operand(code, any, SECOND, second)?;
    put_binary(
        code,
        operation,
        operand_register(any, FIRST, dest),
        operand_register(any, FIRST, first),
        operand_register(any, SECOND, second),
    )?;
    put_result(code, any, dest)
}

// ---- jumps

/// The jump at a point to an item: none where that is the next one.
pub fn put_jump(
    code: &mut Seq<u32>,
    entries: &[u32],
    homes: &SlotHomes<'_>,
    point: u32,
    to: u32,
) -> Result<(), AllocError>
    requires here { length code.old ≤ most_words }
    requires point { point < 2 ^ 32 - 1 }
    requires some_entries { 0 < length entries.now }
    requires few_entries { (k : ℕ) → table_at entries.now k ≤ most_words }
    ensures { OnOk result (code.new ≡ code.old ++ map encoded
        (items.jump_words (homes_in homes.now) (table_at entries.now) point (length code.old) to)) }
{
    if is_next(point, to) {
        return put_mark(code, homes);
    }
    let here = code.as_slice().len() as u32;
    put(code, &[jump(ZERO, here, place(entries, to))])
}

// To one item where a register isn't 0, else to another; the jump to the first is word `at` of the image. Three words: a branch
// reaches 4 KiB only, so it skips the first of two jumps, each of which reaches the whole image.
fn ways(condition: u8, at: u32, then_to: u32, else_to: u32) -> [Word; 3]
    requires condition { condition < 32 }
    requires at { at < most_words }
    requires then_to { then_to ≤ most_words }
    requires else_to { else_to ≤ most_words }
    ensures { result ≡ mnemonics.beq condition 0 (pos 8) ∷ Word.Jal 0 (jump_offset at then_to)
        ∷ Word.Jal 0 (jump_offset (at + 1) else_to) ∷ [] }
{
    [
        branch(Condition::Eq, condition, ZERO, 8),
        jump(ZERO, at, then_to),
        jump(ZERO, at + 1, else_to),
    ]
}

// The bytes from a word of the image to one that is near.
fn near_bytes(from: u32, to: u32) -> i16
    requires down { from ≤ to + 1000 }
    requires up { to ≤ from + 1000 }
    requires few { from ≤ most_words }
    ensures value { result ≡ jump_offset from to }
    ensures low { neg_ℤ (pos 4096) ≤ℤ result }
    ensures high { result <ℤ pos 4096 }
    ensures even { bits_13 result % 2 ≡ 0 }
{
    if from <= to {
        4 * (to - from) as i16
    } else {
        -(4 * (from - to) as i16)
    }
}

// To an item from word `at` of the image at a point, where a register and 0 meet a condition, else on. The other condition is the
// opposite one.
fn put_way(
    code: &mut Seq<u32>,
    entries: &[u32],
    func: &SlotFunction,
    point: u32,
    at: u32,
    leads: Condition,
    skips: Condition,
    register: u8,
    to: u32,
) -> Result<(), AllocError>
    requires at { at < most_words }
    requires near { reach.is_in_reach func.now point to ≡ true → (table_at entries.now to ≤ at + 1000) × (at ≤ table_at entries.now to + 1000) }
    requires register { register < 32 }
    requires some_entries { 0 < length entries.now }
    requires few_entries { (k : ℕ) → table_at entries.now k ≤ most_words }
    ensures { OnOk result (code.new ≡ code.old ++ map encoded (items.way_words func.now (table_at entries.now) point at leads skips register to)) }
{
    let word = place(entries, to);
    if is_in_reach(func, point, to) {
        return put(code, &[branch(leads, register, ZERO, near_bytes(at, word))]);
    }
    put(
        code,
        &[branch(skips, register, ZERO, 8), jump(ZERO, at + 1, word)],
    )
}

// The words of a branch at a point behind those of its condition, which a register has; they begin at word `at` of the image. Where
// one item is the next they lead to the other.
fn put_ways(
    code: &mut Seq<u32>,
    entries: &[u32],
    func: &SlotFunction,
    point: u32,
    at: u32,
    condition: u8,
    then_to: u32,
    else_to: u32,
) -> Result<(), AllocError>
    requires at { at + items.branch_size func.now point then_to else_to ≤ most_words }
    requires near_then { reach.is_in_reach func.now point then_to ≡ true → (table_at entries.now then_to ≤ at + 1000) × (at ≤ table_at entries.now then_to + 1000) }
    requires near_else { reach.is_in_reach func.now point else_to ≡ true → (table_at entries.now else_to ≤ at + 1000) × (at ≤ table_at entries.now else_to + 1000) }
    requires point { point < 2 ^ 32 - 1 }
    requires condition { condition < 32 }
    requires some_entries { 0 < length entries.now }
    requires few_entries { (k : ℕ) → table_at entries.now k ≤ most_words }
    ensures { OnOk result (code.new ≡ code.old ++ map encoded (items.branch_words func.now (table_at entries.now) point at condition then_to else_to)) }
{
    if is_next(point, else_to) {
        let leads = Condition::Ne;
        return put_way(
            code,
            entries,
            func,
            point,
            at,
            leads,
            Condition::Eq,
            condition,
            then_to,
        );
    }
    if is_next(point, then_to) {
        let leads = Condition::Eq;
        return put_way(
            code,
            entries,
            func,
            point,
            at,
            leads,
            Condition::Ne,
            condition,
            else_to,
        );
    }
    let then_word = place(entries, then_to);
    put(
        code,
        &ways(condition, at + 1, then_word, place(entries, else_to)),
    )
}

/// The branch at a point: to one item where a home has true, else to another. The table has the words at which items begin.
#[tactic(auto, using(crate::proofs::Appending::put_then))]
pub fn put_branch(
    code: &mut Seq<u32>,
    entries: &[u32],
    func: &SlotFunction,
    point: u32,
    condition: Home,
    then_to: u32,
    else_to: u32,
) -> Result<(), AllocError>
    requires here { length code.old + (moves.source_size condition + items.branch_size func.now point then_to else_to) ≤ most_words }
    requires near_then { reach.is_in_reach func.now point then_to ≡ true → (table_at entries.now then_to ≤ length code.old + 988) × (length code.old ≤ table_at entries.now then_to + 988) }
    requires near_else { reach.is_in_reach func.now point else_to ≡ true → (table_at entries.now else_to ≤ length code.old + 988) × (length code.old ≤ table_at entries.now else_to + 988) }
    requires point { point < 2 ^ 32 - 1 }
    requires condition { IsReached condition }
    requires some_entries { 0 < length entries.now }
    requires few_entries { (k : ℕ) → table_at entries.now k ≤ most_words }
    ensures { let at = length code.old + moves.source_size condition in OnOk result (code.new ≡ code.old ++ map encoded
        (moves.source_words 5 condition ++ items.branch_words func.now (table_at entries.now) point at (moves.register_for 5 condition) then_to else_to)) }
{
    let at = code.as_slice().len() as u32 + source_size_of(condition);
    put_source(code, FIRST, condition)?;
    put_ways(
        code,
        entries,
        func,
        point,
        at,
        register_for(FIRST, condition),
        then_to,
        else_to,
    )
}

// ---- calls and returns

// The fault Frames where no frame may be made; else one less may be.
fn put_room(code: &mut Seq<u32>) -> Result<(), AllocError>
    ensures { OnOk result (code.new ≡ code.old ++ map encoded items.room_words) }
{
    put(code, &[branch(Condition::Ne, FRAMES_LEFT, ZERO, 16)])?;
    put(code, &fault(Fault::Frames))?;
    put(code, &[addi(FRAMES_LEFT, FRAMES_LEFT, Immediate::of(-1))])
}

// The arguments to where the function of a number has them.
#[tactic(auto, using(crate::proofs::Appending::put_then))]
fn put_arguments(
    code: &mut Seq<u32>,
    homes: &SlotHomes<'_>,
    func: &SlotFunction,
    function: u32,
    args: &[u32],
) -> Result<(), AllocError>
    requires frame { func.now.words < frame_reach }
    requires few { length args.now < frame_reach }
    requires args { AllByRecursion (λ x. IsReached (variable_home (homes_in homes.now) x)) args.now }
    requires given { (k r : ℕ) → (homes_in homes.now).given function k ≡ Some (Reg r) → r < 32 }
    ensures { OnOk result (code.new ≡ code.old ++ map encoded (pass_words (homes_in homes.now) func.now function args.now)) }
{
    put_part(code, Part::Stores, homes, func, function, args)?;
    put_part(code, Part::Copies, homes, func, function, args)?;
    put_part(code, Part::Loads, homes, func, function, args)
}

// A function's result into its destination.
fn put_call_result(
    code: &mut Seq<u32>,
    homes: &SlotHomes<'_>,
    dest: Option<u32>,
) -> Result<(), AllocError>
    requires { AllByRecursion (λ x. IsReached (variable_home (homes_in homes.now) x)) (listed dest) }
    ensures { OnOk result (code.new ≡ code.old ++ map encoded (items.call_result_words (homes_in homes.now) dest)) }
{
    match dest {
        Some(dest) => put_fill(code, ARGUMENT, homes.variable(dest)),
        None => Ok(()),
    }
}

// What follows the jump of the call at a point.
#[tactic(auto, using(crate::proofs::Appending::put_then))]
fn put_after_call(
    code: &mut Seq<u32>,
    homes: &SlotHomes<'_>,
    func: &SlotFunction,
    point: u32,
    dest: Option<u32>,
) -> Result<(), AllocError>
    requires frame { func.now.words < frame_reach }
    requires movable { AreMovableAt (homes_in homes.now) func.now point }
    requires dest { AllByRecursion (λ x. IsReached (variable_home (homes_in homes.now) x)) (listed dest) }
    ensures { OnOk result (code.new ≡ code.old ++ map encoded (items.after_call (homes_in homes.now) func.now point dest)) }
{
    put_frame_by(code, bytes_down(func))?;
    SlotMoves::outliving(homes, func, point, dest).put(code, Transfer::Restore)?;
    put_call_result(code, homes, dest)
}

/// The call at a point, of the function of a number, whose first word is `start`.
#[tactic(auto, using(crate::proofs::Appending::put_then))]
pub fn put_call(
    code: &mut Seq<u32>,
    homes: &SlotHomes<'_>,
    func: &SlotFunction,
    point: u32,
    dest: Option<u32>,
    function: u32,
    start: u32,
    args: &[u32],
) -> Result<(), AllocError>
    requires here { length code.old + items.before_call (homes_in homes.now) func.now point dest function args.now ≤ most_words }
    requires start { start ≤ most_words }
    requires frame { func.now.words < frame_reach }
    requires few { length args.now < frame_reach }
    requires movable { AreMovableAt (homes_in homes.now) func.now point }
    requires dest { AllByRecursion (λ x. IsReached (variable_home (homes_in homes.now) x)) (listed dest) }
    requires args { AllByRecursion (λ x. IsReached (variable_home (homes_in homes.now) x)) args.now }
    requires given { (k r : ℕ) → (homes_in homes.now).given function k ≡ Some (Reg r) → r < 32 }
    ensures { OnOk result (code.new ≡ code.old ++ map encoded
        (items.call_words (homes_in homes.now) func.now point (length code.old) dest function start args.now)) }
{
    let from = code.as_slice().len() as u32
        + before_call_size(homes, func, point, dest, function, args);
    put_room(code)?;
    SlotMoves::outliving(homes, func, point, dest).put(code, Transfer::Save)?;
    put_arguments(code, homes, func, function, args)?;
    put_frame_by(code, bytes_up(func))?;
    put(code, &[jump(LINK, from, start)])?;
    put_after_call(code, homes, func, point, dest)
}

/// The way back into its word of the frame, unless the function is a leaf.
pub fn put_keep_way(code: &mut Seq<u32>, homes: &SlotHomes<'_>) -> Result<(), AllocError>
    ensures { OnOk result (code.new ≡ code.old ++ map encoded (items.keep_way_words (homes_in homes.now))) }
{
    if homes.is_leaf() {
        return Ok(());
    }
    put(code, &[sd(FRAME, LINK, number(0))])
}

// And from there.
fn put_take_way(code: &mut Seq<u32>, homes: &SlotHomes<'_>) -> Result<(), AllocError>
    ensures { OnOk result (code.new ≡ code.old ++ map encoded (items.take_way_words (homes_in homes.now))) }
{
    if homes.is_leaf() {
        return Ok(());
    }
    put(code, &[ld(LINK, FRAME, number(0))])
}

/// The words that leave a function.
#[tactic(auto, using(crate::proofs::Appending::put_then))]
pub fn put_leave(code: &mut Seq<u32>, homes: &SlotHomes<'_>) -> Result<(), AllocError>
    ensures { OnOk result (code.new ≡ code.old ++ map encoded (items.leave_words (homes_in homes.now))) }
{
    put_take_way(code, homes)?;
    put(
        code,
        &[
            addi(FRAMES_LEFT, FRAMES_LEFT, number(1)),
            jalr(ZERO, LINK, 0),
        ],
    )
}

// The returned value.
fn put_returned(
    code: &mut Seq<u32>,
    homes: &SlotHomes<'_>,
    value: Option<u32>,
) -> Result<(), AllocError>
    requires { AllByRecursion (λ x. IsReached (variable_home (homes_in homes.now) x)) (listed value) }
    ensures { OnOk result (code.new ≡ code.old ++ map encoded (items.returned_words (homes_in homes.now) value)) }
{
    match value {
        Some(variable) => put_fetch(code, ARGUMENT, homes.variable(variable)),
        None => Ok(()),
    }
}

/// A return, with a value or without one.
#[tactic(auto, using(crate::proofs::Appending::put_then))]
pub fn put_return(
    code: &mut Seq<u32>,
    homes: &SlotHomes<'_>,
    value: Option<u32>,
) -> Result<(), AllocError>
    requires { AllByRecursion (λ x. IsReached (variable_home (homes_in homes.now) x)) (listed value) }
    ensures { OnOk result (code.new ≡ code.old ++ map encoded (items.returned_words (homes_in homes.now) value ++ items.leave_words (homes_in homes.now))) }
{
    put_returned(code, homes, value)?;
    put_leave(code, homes)
}

// ---- output

// The environment call that prints a value.
fn print_call(kind: Base) -> Call
    ensures { call_number result ≡ items.print_call kind }
{
    match kind {
        Base::Int => Call::PrintInt,
        Base::Bool => Call::PrintBool,
        Base::Char => Call::PrintChar,
    }
}

// Prints a variable.
#[tactic(auto, using(crate::proofs::Appending::put_then))]
fn put_printed(
    code: &mut Seq<u32>,
    homes: &SlotHomes<'_>,
    printed: Printed,
) -> Result<(), AllocError>
    requires { IsReached (variable_home (homes_in homes.now) printed.variable) }
    ensures { OnOk result (code.new ≡ code.old ++ map encoded (items.value_words (homes_in homes.now) printed)) }
{
    put_fetch(code, ARGUMENT, homes.variable(printed.variable))?;
    put(code, &environment_call(print_call(printed.kind)))
}

// Prints variables, each after a space.
fn put_spaced(
    code: &mut Seq<u32>,
    homes: &SlotHomes<'_>,
    args: &[Printed],
) -> Result<(), AllocError>
    requires { AllByRecursion (λ a. IsReached (variable_home (homes_in homes.now) a.variable)) args.now }
    ensures { OnOk result (code.new ≡ code.old ++ map encoded (items.spaced_words (homes_in homes.now) args.now)) }
{
    for arg in args {
        put(code, &environment_call(Call::PrintSpace))?;
        put_printed(code, homes, *arg)?;
    }
    Ok(())
}

/// Prints variables, a space between two, and a line feed.
#[tactic(auto, using(crate::proofs::Appending::put_then))]
pub fn put_print(
    code: &mut Seq<u32>,
    homes: &SlotHomes<'_>,
    args: &[Printed],
) -> Result<(), AllocError>
    requires { AllByRecursion (λ a. IsReached (variable_home (homes_in homes.now) a.variable)) args.now }
    ensures { OnOk result (code.new ≡ code.old ++ map encoded (items.print_words (homes_in homes.now) args.now)) }
{
    if let [first, rest @ ..] = args {
        put_printed(code, homes, *first)?;
        put_spaced(code, homes, rest)?;
    }
    put(code, &environment_call(Call::PrintLine))
}

// ---- memory

/// A new block of so many cells as one home has; another gets its pointer.
#[tactic(auto, using(crate::proofs::Appending::put_then))]
pub fn put_alloc(code: &mut Seq<u32>, dest: Home, count: Home) -> Result<(), AllocError>
    requires dest { IsReached dest }
    requires count { IsReached count }
    ensures { OnOk result (code.new ≡ code.old ++ map encoded
        (moves.fetch_words 10 count ++ (operations.alloc_words ++ moves.fill_words 10 dest))) }
{
    put_fetch(code, ARGUMENT, count)?;
    put(code, &environment_call(Call::Alloc))?;
    put_fill(code, ARGUMENT, dest)
}

/// The block of a pointer is freed.
#[tactic(auto, using(crate::proofs::Appending::put_then))]
pub fn put_free(code: &mut Seq<u32>, pointer: Home) -> Result<(), AllocError>
    requires { IsReached pointer }
    ensures { OnOk result (code.new ≡ code.old ++ map encoded (moves.fetch_words 10 pointer ++ operations.free_words)) }
{
    put_fetch(code, ARGUMENT, pointer)?;
    put(code, &environment_call(Call::Free))
}

/// What a home has into the cell of a pointer.
#[tactic(auto, using(crate::proofs::Appending::put_then))]
pub fn put_store_item(code: &mut Seq<u32>, pointer: Home, value: Home) -> Result<(), AllocError>
    requires pointer { IsReached pointer }
    requires value { IsReached value }
    ensures { OnOk result (code.new ≡ code.old ++ map encoded
        (moves.fetch_words 5 pointer ++ (operations.cell_words ++ (operations.mark_cell_words
        ++ (moves.source_words 5 value ++ operations.store_cell_words (moves.register_for 5 value)))))) }
{
    put_fetch(code, FIRST, pointer)?;
    put_cell(code)?;
    put_mark_cell(code)?;
    put_source(code, FIRST, value)?;
    put_store_cell(code, register_for(FIRST, value))
}

/// The cell of a pointer into a home.
#[tactic(auto, using(crate::proofs::Appending::put_then))]
pub fn put_load_item(code: &mut Seq<u32>, dest: Home, pointer: Home) -> Result<(), AllocError>
    requires dest { IsReached dest }
    requires pointer { IsReached pointer }
    ensures { OnOk result (code.new ≡ code.old ++ map encoded
        (moves.fetch_words 5 pointer ++ (operations.cell_words ++ (operations.load_cell_words (moves.register_for 5 dest) ++ moves.target_words 5 dest)))) }
{
    put_fetch(code, FIRST, pointer)?;
    put_cell(code)?;
    put_load_cell(code, register_for(FIRST, dest))?;
    put_target(code, FIRST, dest)
}

// ---- speculation

/// The `speculate` at a point: slots are kept at a new level.
#[tactic(auto, using(crate::proofs::Appending::put_then))]
pub fn put_speculate(
    code: &mut Seq<u32>,
    homes: &SlotHomes<'_>,
    func: &SlotFunction,
    point: u32,
) -> Result<(), AllocError>
    requires { AreMovableAt (homes_in homes.now) func.now point }
    ensures { OnOk result (code.new ≡ code.old ++ map encoded
        (moves.save_words (speculate_moves (homes_in homes.now) func.now point) ++ items.mark_words (homes_in homes.now))) }
{
    SlotMoves::kept(homes, func, point).put(code, Transfer::Save)?;
    put_mark(code, homes)
}

// The bytes that a branch over so many words leads on.
fn bytes_over(count: u32) -> i16
    requires { count < 1023 }
    ensures value { result ≡ pos (4 * suc count) }
    ensures even { bits_13 result % 2 ≡ 0 }
{
    4 * (count + 1) as i16
}

// Over so many words where a register isn't 0. A branch reaches 4 KiB only; over more it skips a jump, which reaches the whole image.
fn put_skip(code: &mut Seq<u32>, condition: u8, count: u32) -> Result<(), AllocError>
    requires condition { condition < 32 }
    requires count { items.skip_size count + count ≤ most_words + 1 }
    ensures { OnOk result (code.new ≡ code.old ++ map encoded (items.skip_words condition count)) }
{
    if reaches_over(count) {
        let over = branch(Condition::Ne, condition, ZERO, bytes_over(count));
        return put(code, &[over]);
    }
    put(
        code,
        &[
            branch(Condition::Eq, condition, ZERO, 8),
            jump(ZERO, 0, count + 1),
        ],
    )
}

// The words of the guard at a point before its last.
#[tactic(auto, using(crate::proofs::Appending::put_then))]
fn put_guard_front(
    code: &mut Seq<u32>,
    homes: &SlotHomes<'_>,
    func: &SlotFunction,
    point: u32,
    condition: u32,
    label: u32,
) -> Result<(), AllocError>
    requires condition { IsReached (variable_home (homes_in homes.now) condition) }
    requires movable { AreMovableAt (homes_in homes.now) func.now point }
    requires few { items.guard_front_size (homes_in homes.now) func.now point condition label ≤ most_words }
    ensures { OnOk result (code.new ≡ code.old ++ map encoded (items.guard_front (homes_in homes.now) func.now point condition label)) }
{
    let home = homes.variable(condition);
    let back = SlotMoves::taken_back(homes, func, point, label);
    put_source(code, FIRST, home)?;
    put_skip(
        code,
        register_for(FIRST, home),
        1 + back.size(Transfer::Restore),
    )?;
    back.put(code, Transfer::Restore)
}

/// The guard at a point: where its variable doesn't hold true, slots are taken back from the newest level, and control goes to
/// the item of its label, whose first word is `abort_to`.
#[tactic(auto, using(crate::proofs::Appending::put_then))]
pub fn put_guard(
    code: &mut Seq<u32>,
    homes: &SlotHomes<'_>,
    func: &SlotFunction,
    point: u32,
    condition: u32,
    label: u32,
    abort_to: u32,
) -> Result<(), AllocError>
    requires here { length code.old + items.guard_front_size (homes_in homes.now) func.now point condition label ≤ most_words }
    requires condition { IsReached (variable_home (homes_in homes.now) condition) }
    requires movable { AreMovableAt (homes_in homes.now) func.now point }
    requires abort_to { abort_to ≤ most_words }
    ensures { OnOk result (code.new ≡ code.old ++ map encoded (items.guard_front (homes_in homes.now) func.now point condition label
        ++ Word.Jal 0 (jump_offset (length code.old + items.guard_front_size (homes_in homes.now) func.now point condition label) abort_to) ∷ [])) }
{
    let last = code.as_slice().len() as u32
        + guard_front_size(homes, func, point, condition, label);
    put_guard_front(code, homes, func, point, condition, label)?;
    put(code, &[jump(ZERO, last, abort_to)])
}
