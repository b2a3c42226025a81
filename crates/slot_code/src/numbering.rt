// The slots of a function, and their numbers: the variables first, then the shadows that its items use.

ghost use Rattle.std.specs.Prelude.{◌≡◌, ◌<◌, ◌+◌, ◌-◌, ◌^◌, ◌||◌, [], ◌∷◌, ◌++◌, ℕ, Bool, false, cond, EachIndex, length, map, slice_index_or, IfOk, OnOk};
ghost use Rattle.std.specs.List.{filter, list_any, range_with_len};
ghost use Rattle.slot_code.specs.Numbering.{is_shadow, is_used, passes, shadow_number, slots_in, uses_shadow};
ghost use Rattle.slot_code.specs.declared.item.Slot.TheVariants as slot;

use crate::item::{Slot, SlotItem};
use bril_tree::sequence::Seq;
use std::alloc::{AllocError, Global};

// Marks the variable whose shadow the slot is.
fn mark_slot(marks: &mut [bool], slot: Slot)
    ensures { EachIndex marks.old (λ x. slice_index_or marks.new x false
        ≡ (slice_index_or marks.old x false || is_shadow x slot)) }
{
    if let Slot::Shadow(x) = slot {
        if (x as usize) < marks.len() {
            marks[x as usize] = true;
        }
    }
}

// Marks each variable whose shadow the item uses.
fn mark_item(marks: &mut [bool], item: &SlotItem)
    ensures { EachIndex marks.old (λ x. slice_index_or marks.new x false
        ≡ (slice_index_or marks.old x false || uses_shadow x item.now)) }
{
    if let SlotItem::Copy { dest, from } = item {
        mark_slot(marks, *dest);
        mark_slot(marks, *from);
    }
}

// Marks each variable whose shadow some item uses.
fn mark_items(marks: &mut [bool], items: &[SlotItem])
    ensures { EachIndex marks.old (λ x. slice_index_or marks.new x false
        ≡ (slice_index_or marks.old x false || list_any (uses_shadow x) items.now)) }
{
    for item in items {
        mark_item(marks, item);
    }
}

// Marks each variable whose shadow some item uses, where none is marked.
fn mark_used(marks: &mut [bool], items: &[SlotItem])
    requires { EachIndex marks.old (λ x. slice_index_or marks.old x false ≡ false) }
    ensures { marks.new ≡ map (is_used items.now) (range_with_len 0 (length marks.old)) }
{
    mark_items(marks, items);
}

// For each of so many variables whether some item uses its shadow.
pub fn used_shadows(
    alloc: Global,
    variables: usize,
    items: &[SlotItem],
) -> Result<Vec<bool>, AllocError>
    ensures { IfOk result (λ marks. marks.items ≡ map (is_used items.now) (range_with_len 0 variables)) }
{
    let mut marks = vec![in alloc; false; variables]?;
    mark_used(&mut marks, items);
    Ok(marks)
}

// The slots: each variable, and then the shadow of each that is marked. There are fewer than 2^32 variables; memory ends
// long before there are more.
pub fn all_slots(alloc: Global, marks: &[bool]) -> Result<Seq<Slot>, AllocError>
    ensures { IfOk result (λ slots. (test : ℕ → Bool) → marks.now ≡ map test (range_with_len 0 (length marks.now))
        → slots ≡ slots_in (length marks.now) test) }
{
    let mut slots = Seq::new(alloc);
    push_variables(&mut slots, marks.len())?;
    push_shadows(&mut slots, marks)?;
    Ok(slots)
}

// Adds so many variables.
fn push_variables(slots: &mut Seq<Slot>, variables: usize) -> Result<(), AllocError>
    ensures { OnOk result (slots.new ≡ slots.old ++ map slot.Variable (range_with_len 0 variables)) }
{
    for x in 0..variables {
        slots.push(Slot::Variable(number_of(x)?))?;
    }
    Ok(())
}

// Adds the shadow of each variable that is marked.
fn push_shadows(slots: &mut Seq<Slot>, marks: &[bool]) -> Result<(), AllocError>
    ensures { OnOk result ((test : ℕ → Bool) → marks.now ≡ map test (range_with_len 0 (length marks.now))
        → slots.new ≡ slots.old ++ filter (passes test) (map slot.Shadow (range_with_len 0 (length marks.now)))) }
{
    for x in 0..marks.len() {
        push_shadow(slots, x, marks[x])?;
    }
    Ok(())
}

// Adds the shadow of a variable where it is marked.
fn push_shadow(slots: &mut Seq<Slot>, x: usize, marked: bool) -> Result<(), AllocError>
    ensures { OnOk result (slots.new ≡ slots.old ++ cond marked (slot.Shadow x ∷ []) []) }
{
    if marked {
        slots.push(Slot::Shadow(number_of(x)?))?;
    }
    Ok(())
}

// The number of a variable, as 32 bits.
fn number_of(x: usize) -> Result<u32, AllocError>
    ensures { IfOk result (λ number. number ≡ x) }
{
    match u32::try_from(x) {
        Ok(number) => Ok(number),
        Err(_) => Err(AllocError),
    }
}

// For each variable the number of its shadow's slot: behind the variables and the shadows that are marked before it.
pub fn shadow_numbers(alloc: Global, marks: &[bool]) -> Result<Seq<usize>, AllocError>
    ensures { IfOk result (λ numbers. (test : ℕ → Bool) → marks.now ≡ map test (range_with_len 0 (length marks.now))
        → numbers ≡ map (shadow_number (length marks.now) test) (range_with_len 0 (length marks.now))) }
{
    let mut numbers = Seq::new(alloc);
    let mut next = marks.len();
    for x in 0..marks.len() {
        numbers.push(next)?;
        next = number_after(next, marks[x]);
    }
    Ok(numbers)
}

// The number of the next shadow, where the last one has this number if it is marked.
fn number_after(number: usize, marked: bool) -> usize
    requires { number < 2 ^ 64 - 1 }
    ensures { result ≡ number + cond marked 1 0 }
{
    if marked { number + 1 } else { number }
}
