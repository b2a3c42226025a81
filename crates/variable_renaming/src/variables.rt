// The variables of a function: their types, their shadows and their classes.

ghost use Rattle.std.specs.Prelude.{◌≡◌, ◌<◌, ◌≤◌, ◌^◌, ℕ, true, false, IfOk, length, slice_set};
ghost use Rattle.bril_tree.specs.Typing.{variable_type};
ghost use Rattle.graph_search.specs.Marks.{is_marked};
ghost use Rattle.variable_renaming.specs.Apart.{HasShadow};
ghost use Rattle.variable_renaming.specs.Classes.{class_of};
ghost use Rattle.variable_renaming.specs.Shadows.{MarksShadow};

use crate::copies::shadow_of;
use bril_tree::numbered::Instr;
use bril_tree::numbered_function::Func;
use bril_tree::typing::same_result;
use std::alloc::{AllocError, Global};

/// Whether the two variables are of one type.
pub fn are_of_one_type(func: &Func, x: u32, y: u32) -> bool
    requires x { x < length func.now.vars }
    requires y { y < length func.now.vars }
    ensures same { result ≡ true → variable_type func.now.vars x ≡ variable_type func.now.vars y }
    ensures other { result ≡ false → variable_type func.now.vars x ≡ variable_type func.now.vars y → ⊥ }
{
    let vars = func.vars.as_slice();
    same_result(vars[x as usize].ty, vars[y as usize].ty)
}

/// Marks a variable, where it has a mark.
pub fn mark(marks: &mut Vec<bool>, x: u32)
    ensures { marks.new.items ≡ slice_set marks.old.items x true }
{
    let k = x as usize;
    if k < marks.len() {
        marks[k] = true;
    }
}

// Marks the variable whose shadow the item names, where it names one.
fn mark_shadow(marks: &mut Vec<bool>, item: &Instr)
    ensures { MarksShadow item.now marks.old.items marks.new.items }
{
    if let Some(x) = shadow_of(item) {
        mark(marks, x);
    }
}

/// A mark for each variable, which tells whether some item names its shadow. The only error is out of memory.
pub fn shadowed_variables(alloc: Global, func: &Func) -> Result<Vec<bool>, AllocError>
    ensures long { IfOk result (λ marks. length marks.items ≡ length func.now.vars) }
    ensures all { IfOk result (λ marks. (x : ℕ) → x < length func.now.vars → HasShadow func.now.code x → is_marked marks.items x ≡ true) }
    ensures only { IfOk result (λ marks. (x : ℕ) → is_marked marks.items x ≡ true → HasShadow func.now.code x) }
{
    let mut marks = vec![in alloc; false; func.vars.as_slice().len()]?;
    for item in func.code.as_slice() {
        mark_shadow(&mut marks, item);
    }
    Ok(marks)
}

/// The numbers below a bound, in order: a class for each variable. The only error is out of memory.
pub fn numbers_below(alloc: Global, count: usize) -> Result<Vec<u32>, AllocError>
    requires { count ≤ 2 ^ 32 }
    ensures long { IfOk result (λ numbers. length numbers.items ≡ count) }
    ensures own { IfOk result (λ numbers. (x : ℕ) → class_of numbers.items x ≡ x) }
{
    let mut numbers = Vec::new(alloc);
    for x in 0..count {
        numbers.push(x as u32)?;
    }
    Ok(numbers)
}

/// The class of a variable; its own where the list has none.
pub fn class_of(class: &[u32], x: u32) -> u32
    ensures { result ≡ class_of class.now x }
{
    if (x as usize) < class.len() {
        class[x as usize]
    } else {
        x
    }
}
