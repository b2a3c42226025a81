// The names of functions in the tree of all files.

ghost use Rattle.std.specs.Prelude.{◌≡◌, ◌+◌, ◌<◌, ◌^◌, ◌||◌, ◌++◌, ◌∷◌, [], ℕ, false, nat_eq, replicate, IfOk, IfSome, OnOk};
ghost use Rattle.std.specs.Fmt.{decimal};
ghost use Rattle.std.specs.List.{list_any};
ghost use Rattle.import_linker.specs.Linked.{begins_so, spelled, IsFreshRun};
ghost use Rattle.import_linker.specs.Names.{function_names};
ghost use Rattle.import_linker.specs.Runs.{run_of};

use bril_tree::function_tree::FuncTree;
use bril_tree::name::Name;
use indexmap::IndexSet;
use itoa::Buffer;
use std::alloc::{AllocError, Global};

/// The least number, from 1, such that no name of these functions begins with so many `_` and a digit.
pub(crate) fn fresh_run(alloc: Global, functions: &[FuncTree]) -> Result<usize, AllocError>
    ensures { IfOk result (λ run. IsFreshRun (function_names functions.now) run) }
{
    let mut runs = IndexSet::new(alloc);
    let longest = add_runs(&mut runs, functions)?;
    let mut run = 1;
    while runs.contains(&run) {
        run += 1;
    }
    Ok(run)
}

// Adds the runs of `_` with which names of functions begin before a digit, and gives the longest, or 0 where there is none.
fn add_runs(runs: &mut IndexSet<usize>, functions: &[FuncTree]) -> Result<usize, AllocError>
    requires { runs.old.keys ≡ [] }
    ensures runs { (n : ℕ) → OnOk result (list_any (nat_eq n) runs.new.keys ≡ list_any (begins_so n) (function_names functions.now)) }
    ensures longest { (n : ℕ) → IfOk result (λ longest. longest < n → list_any (begins_so n) (function_names functions.now) ≡ false) }
    ensures small { IfOk result (λ longest. longest + 1 < 2 ^ 64) }
{
    let mut longest = 0;
    for function in functions {
        longest = add_run(runs, longest, function.name.as_bytes())?;
    }
    Ok(longest)
}

// Adds the run of `_` with which a name begins before a digit, if there is one, and gives the longer one of it and this.
fn add_run(runs: &mut IndexSet<usize>, longest: usize, name: &[u8]) -> Result<usize, AllocError>
    requires { longest + 1 < 2 ^ 64 }
    ensures runs { (n : ℕ) → OnOk result (list_any (nat_eq n) runs.new.keys ≡ (list_any (nat_eq n) runs.old.keys || begins_so n name.now)) }
    ensures longest { (n : ℕ) → IfOk result (λ longer. longer < n → (longest < n) × (begins_so n name.now ≡ false)) }
    ensures small { IfOk result (λ longer. longer + 1 < 2 ^ 64) }
{
    match run_of(name) {
        None => Ok(longest),
        Some(run) => {
            runs.insert(run)?;
            Ok(if longest < run { run } else { longest })
        }
    }
}

// How many `_` a name begins with before a digit, where a digit is next.
fn run_of(name: &[u8]) -> Option<usize>
    ensures run { result ≡ run_of name.now }
    ensures small { IfSome result (λ run. run + 1 < 2 ^ 64) }
{
    for (place, byte) in name.iter().enumerate() {
        if *byte != b'_' {
            return if byte.is_ascii_digit() {
                Some(place)
            } else {
                None
            };
        }
    }
    None
}

/// The name in the tree of the function of this name in the file of a number.
pub(crate) fn spelled_name(
    alloc: Global,
    run: usize,
    file: usize,
    name: &Name,
) -> Result<Name, AllocError>
    requires { 0 < run }
    ensures { IfOk result (λ made. made ≡ spelled run (record { file = file; name = name.now })) }
{
    if file == 0 {
        return name.copied(alloc);
    }
    let bytes = spelled_bytes(alloc, run, file, name.as_bytes())?;
    Name::of_identifier(alloc, bytes.as_slice())
}

// So many `_`, the number, `.` and the name.
fn spelled_bytes(alloc: Global, run: usize, file: usize, name: &[u8]) -> Result<Vec<u8>, AllocError>
    ensures { IfOk result (λ bytes. bytes.items ≡ replicate run 95 ++ decimal file ++ 46 ∷ name.now) }
{
    let mut bytes = vec![in alloc; b'_'; run]?;
    let mut buffer = Buffer::new();
    bytes.extend_from_slice(buffer.format(file as u64).as_bytes())?;
    bytes.push(b'.')?;
    bytes.extend_from_slice(name)?;
    Ok(bytes)
}
