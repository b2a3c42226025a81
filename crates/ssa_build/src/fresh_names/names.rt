// Names of definitions.

ghost use Rattle.std.specs.Prelude.{◌≡◌, ◌==◌, ◌<◌, ◌≤◌, ◌+◌, ◌-◌, ◌^◌, ℕ, IfOk, IsTrue, length, slice_index};
ghost use Rattle.bril_tree.specs.Identifier.{is_identifier};
ghost use Rattle.bril_tree.specs.Numbered.{named, variable_names};
ghost use Rattle.ssa_build.specs.fresh_names.Names.{definition_name, front_of, has_dot, made_name, marks, stem_end};

use bril_tree::name::Name;
use bril_tree::numbered::VarInfo;
use itoa::Buffer;
use std::alloc::{AllocError, Global};

// The place of the last `.` of a name, or its length where it has none.
fn stem_end(name: &[u8]) -> usize
    ensures end { result ≡ stem_end 0 (length name.now) name.now }
    ensures within { result ≤ length name.now }
{
    let mut end = name.len();
    for (place, byte) in name.iter().enumerate() {
        if *byte == b'.' {
            end = place;
        }
    }
    end
}

// How many `_` a name begins with.
fn marks(name: &[u8]) -> usize
    ensures marks { result ≡ marks name.now }
    ensures within { result ≤ length name.now }
{
    for (place, byte) in name.iter().enumerate() {
        if *byte != b'_' {
            return place;
        }
    }
    name.len()
}

// Whether a name has a `.`.
fn has_dot(name: &[u8]) -> bool
    ensures { result ≡ has_dot name.now }
{
    name.iter().any(|byte| *byte == b'.')
}

// How many `_` a made name has to begin with, so that it isn't this argument's.
fn front_of(name: &[u8]) -> usize
    requires { length name.now < 2 ^ 63 }
    ensures { result ≡ front_of name.now }
{
    if has_dot(name) { marks(name) + 1 } else { 0 }
}

/// How many `_` the names of definitions begin with at least: none where no argument's name has a `.`, and else one more than any
/// argument with a `.` begins with. The first `args` variables are the arguments. Takes no memory.
pub fn front(vars: &[VarInfo], args: u32) -> usize
    requires { args ≤ length vars.now }
    ensures enough { (x : ℕ) → x < args → front_of (named (variable_names vars.now) x) ≤ result }
    ensures least { (n : ℕ) → ((x : ℕ) → x < args → front_of (named (variable_names vars.now) x) ≤ n) → result ≤ n }
{
    let mut front = 0;
    for x in 0..args {
        let needed = front_of(vars[x as usize].name.as_bytes());
        if front < needed {
            front = needed;
        }
    }
    front
}

// The name of a definition of the variable of this name.
fn made_bytes(alloc: Global, front: usize, name: &[u8], number: u32) -> Result<Vec<u8>, AllocError>
    ensures { IfOk result (λ bytes. bytes.items ≡ made_name front name.now number) }
{
    let stem = &name[..stem_end(name)];
    let mut bytes = vec![in alloc; b'_'; front.saturating_sub(marks(stem))]?;
    bytes.extend_from_slice(stem)?;
    bytes.push(b'.')?;
    let mut buffer = Buffer::new();
    bytes.extend_from_slice(buffer.format(number as u64).as_bytes())?;
    Ok(bytes)
}

// The same as a name, where this is an identifier.
fn made_name(alloc: Global, front: usize, name: &[u8], number: u32) -> Result<Name, AllocError>
    requires { IsTrue (is_identifier name.now) }
    ensures { IfOk result (λ made. made ≡ made_name front name.now number) }
{
    let bytes = made_bytes(alloc, front, name, number)?;
    Name::of_identifier(alloc, bytes.as_slice())
}

/// The name of a definition. The first `args` variables are the arguments, and definitions by these numbers; of each further
/// one `variables` has the variable, or a number that none has. `front` is what the function of that name gives. The only error
/// is out of memory.
pub fn definition_name(
    alloc: Global,
    vars: &[VarInfo],
    args: u32,
    front: usize,
    variables: &[u32],
    definition: u32,
) -> Result<Name, AllocError>
    requires arguments { args ≤ length vars.now }
    requires within { definition < args + length variables.now }
    ensures { IfOk result (λ name. name ≡ definition_name (variable_names vars.now) args front (λ y. slice_index variables.now (y - args)) definition) }
{
    if definition < args {
        return vars[definition as usize].name.copied(alloc);
    }
    let variable = variables[(definition - args) as usize] as usize;
    if variable < vars.len() {
        made_name(alloc, front, vars[variable].name.as_bytes(), definition)
    } else {
        made_name(alloc, front, b"v".as_slice(), definition)
    }
}
