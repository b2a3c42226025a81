// What the items of a function read, as one list.

ghost use Rattle.std.specs.Prelude.{◌≡◌, ◌<◌, ◌^◌, ◌-◌, ◌++◌, length, map, IfOk, OnOk};
ghost use Rattle.bril_tree.specs.Operand.{Variable, locations_read, reading_of, shadow_of};
ghost use Rattle.flow_graph.specs.Reads.{access_at, item_reads, reads_from};

use crate::location::{operand, shadow_number, variable_number};
use bril_tree::numbered::Instr;
use bril_tree::operation::Op;
use std::alloc::{AllocError, Global};

/// An access of a location by an item, as a read or an assignment: the item's number, and that of the location, which is
/// twice that of a variable, and one more for its shadow.
#[derive(Clone, Copy, PartialEq, Eq, Debug, Drop)]
pub struct Access {
    pub item: u32,
    pub location: u32,
}

// Adds a read of each variable.
fn push_variables(reads: &mut Vec<Access>, item: u32, args: &[u32]) -> Result<(), AllocError>
    ensures { OnOk result (reads.new.items ≡ reads.old.items ++ map (access_at item) (map Variable args.now)) }
{
    for x in args {
        let location = variable_number(*x)?;
        reads.push(Access { item, location })?;
    }
    Ok(())
}

// Adds the reads of an operation.
fn push_operands(
    reads: &mut Vec<Access>,
    item: u32,
    op: Op,
    dest: Option<u32>,
    args: &[u32],
) -> Result<(), AllocError>
    ensures { OnOk result (reads.new.items ≡ reads.old.items ++ map (access_at item) (locations_read (reading_of op) dest args.now)) }
{
    match op {
        Op::Get => push_shadow(reads, item, dest),
        Op::Set => {
            let location = variable_number(operand(args, 1))?;
            reads.push(Access { item, location })?;
            Ok(())
        }
        _ => push_variables(reads, item, args),
    }
}

// Adds a read of a destination's shadow, where there is a destination.
fn push_shadow(reads: &mut Vec<Access>, item: u32, dest: Option<u32>) -> Result<(), AllocError>
    ensures { OnOk result (reads.new.items ≡ reads.old.items ++ map (access_at item) (shadow_of dest)) }
{
    match dest {
        None => Ok(()),
        Some(x) => {
            let location = shadow_number(x)?;
            reads.push(Access { item, location })?;
            Ok(())
        }
    }
}

// Adds the reads of an item.
fn push_reads(reads: &mut Vec<Access>, item: u32, instr: &Instr) -> Result<(), AllocError>
    ensures { OnOk result (reads.new.items ≡ reads.old.items ++ item_reads item instr.now) }
{
    match instr {
        Instr::Label(_) => Ok(()),
        Instr::Const { .. } => Ok(()),
        Instr::Act { dest, op, args, .. } => {
            push_operands(reads, item, *op, *dest, args.as_slice())
        }
    }
}

/// The reads of an item of this number, in order. `AllocError` means want of memory, which a variable of a number from 2^31
/// on is taken to have.
pub fn item_reads(alloc: Global, item: u32, instr: &Instr) -> Result<Vec<Access>, AllocError>
    ensures { IfOk result (λ reads. reads.items ≡ item_reads item instr.now) }
{
    let mut reads = Vec::new(alloc);
    push_reads(&mut reads, item, instr)?;
    Ok(reads)
}

/// The reads of all items, in order. Takes time and memory in proportion to the items and their arguments. `AllocError`
/// means want of memory, which a variable of a number from 2^31 on is taken to have.
pub fn all_reads(alloc: Global, code: &[Instr]) -> Result<Vec<Access>, AllocError>
    requires { length code.now < 2 ^ 32 - 1 }
    ensures { IfOk result (λ reads. reads.items ≡ reads_from 0 code.now) }
{
    let mut reads = Vec::new(alloc);
    for (item, instr) in code.iter().enumerate() {
        push_reads(&mut reads, item as u32, instr)?;
    }
    Ok(reads)
}
