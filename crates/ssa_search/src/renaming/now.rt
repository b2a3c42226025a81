// Which definition each location has at a point, in an array by the locations' numbers. For a location of which nothing is told
// it has any number, so it is never cleared.

ghost use Rattle.std.specs.Prelude.{◌≡◌, ◌<◌, ◌≤◌, ◌+◌, ◌*◌, ◌^◌, ℕ, List, Option, Some, None, IfOk, length, slice_index, slice_set};
ghost use Rattle.std.specs.List.{All};
ghost use Rattle.bril_tree.specs.Operand.{Location};
ghost use Rattle.bril_tree.specs.declared.numbered.Instr.TheVariants.{Act};
ghost use Rattle.bril_tree.specs.declared.types.Ty.{Ty};
ghost use Rattle.ssa_search.specs.renaming.Gets.{AreGetsOf};
ghost use Rattle.ssa_search.specs.renaming.Tells.{TellsNow, IsDestWithin, IsSetWithin, ActsWithin, IsItemWithin, with_dest, with_got};
ghost use Rattle.ssa_laws.specs.reaching_definitions.Tables.{else_passed};
ghost use Rattle.ssa_laws.specs.reaching_definitions.Told.{argument, passed_by};

use bril_tree::numbered::Instr;
use bril_tree::operation::Op;
use std::alloc::{AllocError, Global};

// The argument of a number, or 0 where there are too few.
fn operand(args: &[u32], k: usize) -> u32
    ensures { result ≡ slice_index args.now k }
{
    if k < args.len() { args[k] } else { 0 }
}

// The variable of a destination gets a definition.
fn assign(definitions: &mut [u32], dest: Option<u32>, written: u32)
    requires { IsDestWithin (length definitions.old) dest }
    ensures { definitions.new ≡ with_dest dest written definitions.old }
{
    if let Some(x) = dest {
        definitions[2 * x as usize] = written;
    }
}

// The variable of a destination gets the definition of its shadow.
fn get(definitions: &mut [u32], dest: Option<u32>)
    requires { IsDestWithin (length definitions.old) dest }
    ensures { definitions.new ≡ with_got dest definitions.old }
{
    if let Some(x) = dest {
        definitions[2 * x as usize] = definitions[2 * x as usize + 1];
    }
}

// The shadow of the first argument gets the definition of the second one.
fn set(definitions: &mut [u32], args: &[u32])
    requires { IsSetWithin (length definitions.old) args.now }
    ensures { definitions.new ≡ slice_set definitions.old (2 * slice_index args.now 0 + 1) (slice_index definitions.old (2 * slice_index args.now 1)) }
{
    let to = operand(args, 0);
    let from = operand(args, 1);
    definitions[2 * to as usize + 1] = definitions[2 * from as usize];
}

// Passes an action, whose definition has this number.
fn act(definitions: &mut [u32], op: Op, dest: Option<u32>, args: &[u32], written: u32)
    requires within { ActsWithin (length definitions.old) op dest args.now }
    ensures { (ty : Option Ty) (funcs labels : List ℕ) (known : Location → Option ℕ) → TellsNow known definitions.old → TellsNow (passed_by (Some (Act dest ty op args.now funcs labels)) written known) definitions.new }
{
    match op {
        Op::Set => set(definitions, args),
        Op::Get => get(definitions, dest),
        _ => assign(definitions, dest, written),
    }
}

/// The definitions that locations have where a function begins: each argument its own number. There are two locations for each
/// variable. Takes time and memory in proportion to the variables, and fails where memory is lacking.
pub fn begin(alloc: Global, args: u32, variables: u32) -> Result<Vec<u32>, AllocError>
    requires few { args ≤ variables }
    ensures long { IfOk result (λ definitions. length definitions.items ≡ 2 * variables) }
    ensures tells { IfOk result (λ definitions. TellsNow (argument args) definitions.items) }
{
    let mut definitions = Vec::new(alloc);
    for x in 0..variables {
        definitions.push(x)?;
        definitions.push(0)?;
    }
    Ok(definitions)
}

/// Goes on past an item whose own definition has the number `written`: where the array told what is known before the item, it
/// tells what is known behind it. The locations of the item are in the array. Takes no memory.
pub fn pass(definitions: &mut [u32], item: &Instr, written: u32)
    requires within { IsItemWithin (length definitions.old) item.now }
    ensures { (known : Location → Option ℕ) → TellsNow known definitions.old → TellsNow (passed_by (Some item.now) written known) definitions.new }
{
    match item {
        Instr::Label(_) => {}
        Instr::Const { dest, .. } => assign(definitions, Some(*dest), written),
        Instr::Act { dest, op, args, .. } => act(definitions, *op, *dest, args.as_slice(), written),
    }
}

/// A `get` behind a label: the number of its location, and that of its definition.
#[derive(Clone, Copy, PartialEq, Eq, Debug, Drop)]
pub struct WantedGet {
    pub location: u32,
    pub definition: u32,
}

/// Goes on past the `get`s behind a label: where the array told what is known before them, it tells what is known behind them.
/// Takes no memory.
pub fn enter(definitions: &mut [u32], gets: &[WantedGet])
    requires within { All (λ get. get.location < length definitions.old) gets.now }
    ensures long { length definitions.new ≡ length definitions.old }
    ensures tells { (known got : Location → Option ℕ) → AreGetsOf got gets.now → TellsNow known definitions.old → TellsNow (λ a. else_passed (got a) (known a)) definitions.new }
{
    for get in gets {
        definitions[get.location as usize] = get.definition;
    }
}
