// The names of a program's functions.

ghost use Rattle.std.specs.Prelude.{◌≡◌, ◌++◌, ◌∷◌, [], IfOk, OnOk};
ghost use Rattle.std.specs.List.{Contains};
ghost use Rattle.bril_names.specs.Numbering.{Finds};
ghost use Rattle.bril_tree.specs.Numbered.{names_of_functions};

use bril_tree::program::Prog;
use indexmap::IndexSet;
use std::alloc::{AllocError, Global};
use std::marker::Model;

/// Different names, at most 2^32, numbered from 0 in the order in which they came.
#[derive(Drop)]
pub struct FunctionNames<'t> {
    held: IndexSet<&'t [u8]>,
}

impl<'t> Model for FunctionNames<'t> {
    ghost use Rattle.std.specs.Prelude.{List, ℕ, map, length, ◌≤◌, ◌^◌};

    ghost Value = { List (List ℕ) };

    ghost view = { λ n. map (λ k. k.now) n.held.keys };

    ghost invariant = { λ n. length n.held.keys ≤ 2 ^ 32 };
}

impl<'t> FunctionNames<'t> {
    // No names.
    fn new(alloc: Global) -> FunctionNames<'t>
        ensures { result ≡ [] }
    {
        FunctionNames {
            held: IndexSet::new(alloc),
        }
    }

    // Puts a new name last. An error comes where memory or numbers of 32 bits are wanting.
    fn add(&mut self, name: &'t [u8]) -> Result<(), AllocError>
        requires { ¬ Contains self.old name.now }
        ensures { OnOk result (self.new ≡ self.old ++ name.now ∷ []) }
    {
        if u32::try_from(self.held.len()).is_err() {
            return Err(AllocError);
        }
        self.held.insert(name)?;
        Ok(())
    }

    /// The names of the program's functions. The only error is out of memory.
    pub fn of(alloc: Global, program: &'t Prog) -> Result<FunctionNames<'t>, AllocError>
        ensures { IfOk result (λ names. names ≡ names_of_functions program.now.funcs) }
    {
        let mut names = FunctionNames::new(alloc);
        for func in program.funcs.as_slice() {
            names.add(func.name.as_bytes())?;
        }
        Ok(names)
    }

    /// The number of a name, and None exactly where it isn't there. Takes no memory.
    pub fn find(&self, name: &[u8]) -> Option<u32>
        ensures { Finds self.now name.now result }
    {
        let number = self.held.get_index_of(name)?;
        Some(number as u32)
    }
}
