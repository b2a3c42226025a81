// Who reads a variable.

ghost use Rattle.std.specs.Prelude.{◌≡◌, ◌≤◌, ◌<◌, ◌-◌, ◌^◌, ◌↔◌, ℕ, List, length, IfOk, OnOk, IsTrue};
ghost use Rattle.bril_tree.specs.declared.numbered.Instr.{Instr};
ghost use Rattle.flow_graph.specs.Reads.{reads_from};
ghost use Rattle.side_laws.specs.Paired.{ReadAlone};
ghost use Rattle.side_pairs.specs.Readers.{AreNoted, AreReaders, readers_at, with_reader};

use bril_tree::numbered::Instr;
use flow_graph::{Access, all_reads};
use std::alloc::{AllocError, Global};

// How many items read a location: none, one item, or more.
#[derive(Clone, Copy, Drop)]
pub(crate) enum Readers {
    Nobody,
    One(u32),
    Many,
}

// One reader more.
fn with_reader(readers: Readers, item: u32) -> Readers
    ensures { result ≡ with_reader item readers }
{
    match readers {
        Readers::Nobody => Readers::One(item),
        Readers::One(other) => {
            if other == item {
                Readers::One(other)
            } else {
                Readers::Many
            }
        }
        Readers::Many => Readers::Many,
    }
}

// The readers of a location; none where the table ends before it.
fn readers_at(readers: &[Readers], location: usize) -> Readers
    ensures { result ≡ readers_at readers.now location }
{
    match readers.get(location) {
        Some(known) => *known,
        None => Readers::Nobody,
    }
}

// Makes the table at least so long.
fn grow(readers: &mut Vec<Readers>, count: usize) -> Result<(), AllocError>
    ensures long { OnOk result (count ≤ length readers.new.items) }
    ensures same { (location : ℕ) → readers_at readers.new.items location ≡ readers_at readers.old.items location }
{
    for _place in readers.len()..count {
        readers.push(Readers::Nobody)?;
    }
    Ok(())
}

// Notes a read.
fn note(readers: &mut Vec<Readers>, read: Access) -> Result<(), AllocError>
    ensures { OnOk result (AreNoted read readers.old.items readers.new.items) }
{
    let location = read.location as usize;
    grow(readers, location + 1)?;
    let known = readers_at(readers.as_slice(), location);
    readers[location] = with_reader(known, read.item);
    Ok(())
}

// The readers of each location among these reads.
fn noted(alloc: Global, reads: &[Access]) -> Result<Vec<Readers>, AllocError>
    ensures { IfOk result (λ readers. AreReaders reads.now readers.items) }
{
    let mut readers = Vec::new(alloc);
    for read in reads {
        note(&mut readers, *read)?;
    }
    Ok(readers)
}

// The readers of each location of a function. Takes time and memory in proportion to its items and the number of its variables.
pub(crate) fn readers_of(alloc: Global, code: &[Instr]) -> Result<Vec<Readers>, AllocError>
    requires { length code.now < 2 ^ 32 - 1 }
    ensures { IfOk result (λ readers. AreReaders (reads_from 0 code.now) readers.items) }
{
    let reads = all_reads(alloc, code)?;
    noted(alloc, reads.as_slice())
}

// Whether no other item reads the variable.
pub(crate) fn is_alone(readers: &[Readers], variable: u32, item: u32) -> bool
    ensures { (code : List Instr) → AreReaders (reads_from 0 code) readers.now → IsTrue result ↔ ReadAlone code variable item }
{
    match readers_at(readers, 2 * variable as usize) {
        Readers::Nobody => true,
        Readers::One(reader) => reader == item,
        Readers::Many => false,
    }
}
