// The names of all definitions of a function.

ghost use Rattle.std.specs.Prelude.{◌≡◌, ◌<◌, ◌≤◌, ◌+◌, ◌^◌, ◌/◌, ◌++◌, IfOk, OnOk, length, map};
ghost use Rattle.bril_tree.specs.Operand.{dest_of};
ghost use Rattle.ssa_build.specs.code.Names.{AreNames, or_none, variables_written};

use crate::fresh_names::{definition_name, front};
use bril_tree::name::Name;
use bril_tree::numbered::{Instr, VarInfo};
use ssa_search::renaming::WantedGet;
use std::alloc::{AllocError, Global};

// The variable that an item is a definition of; a number that none has where it assigns none.
fn variable_of(item: &Instr) -> u32
    ensures { result ≡ or_none (dest_of item.now) }
{
    match item {
        Instr::Const { dest, .. } => *dest,
        Instr::Act { dest: Some(x), .. } => *x,
        _ => u32::MAX,
    }
}

// Adds the variables of these `get`s.
fn push_got(variables: &mut Vec<u32>, list: &[WantedGet]) -> Result<(), AllocError>
    ensures { OnOk result (variables.new.items ≡ variables.old.items ++ map (λ get. get.location / 2) list.now) }
{
    for get in list {
        variables.push(get.location / 2)?;
    }
    Ok(())
}

/// The variable of which each definition is one, but for arguments: those of items, and then of wanted `get`s. An item that assigns
/// nothing has a number that no variable has. The only error is out of memory.
pub fn variables_written(
    alloc: Global,
    code: &[Instr],
    list: &[WantedGet],
) -> Result<Vec<u32>, AllocError>
    ensures { IfOk result (λ variables. variables.items ≡ variables_written code.now list.now) }
{
    let mut variables = Vec::new(alloc);
    for item in code {
        variables.push(variable_of(item))?;
    }
    push_got(&mut variables, list)?;
    Ok(variables)
}

/// The names of all definitions, by their numbers: the first `args` variables are the arguments, and `variables` has the variable of
/// each further definition. Takes time and memory in proportion to the names. The only error is out of memory.
pub fn all_names(
    alloc: Global,
    vars: &[VarInfo],
    args: u32,
    variables: &[u32],
) -> Result<Vec<Name>, AllocError>
    requires arguments { args ≤ length vars.now }
    requires few { args + length variables.now < 2 ^ 32 }
    ensures { IfOk result (λ names. AreNames vars.now args variables.now names.items) }
{
    let front = front(vars, args);
    let count = args + variables.len() as u32;
    let mut names = Vec::new(alloc);
    for definition in 0..count {
        names.push(definition_name(alloc, vars, args, front, variables, definition)?)?;
    }
    Ok(names)
}
