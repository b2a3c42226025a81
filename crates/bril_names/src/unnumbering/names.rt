// Names that numbers stand for.

ghost use Rattle.std.specs.Prelude.{◌≡◌, ◌<◌, ℕ, List, IfOk, length, map};
ghost use Rattle.bril_tree.specs.Numbered.{named};
ghost use Rattle.bril_names.specs.Range.{AreBelow};

use bril_tree::name::Name;
use bril_tree::numbered::VarInfo;
use bril_tree::numbered_function::Func;
use bril_tree::sequence::Seq;
use std::alloc::{AllocError, Global};

// What a number of a program stands for: it has a name.
pub trait Named {
    ghost name_of: { Self → List ℕ };

    fn name(&self) -> &Name
        ensures { result.now ≡ name_of self.now };
}

impl Named for Name {
    ghost name_of = { λ n. n };

    fn name(&self) -> &Name {
        self
    }
}

impl Named for VarInfo {
    ghost name_of = { λ v. v.name };

    fn name(&self) -> &Name {
        &self.name
    }
}

impl Named for Func {
    ghost name_of = { λ f. f.name };

    fn name(&self) -> &Name {
        &self.name
    }
}

// A copy of the name of the number.
pub fn copied_name<N: Named>(alloc: Global, table: &[N], number: u32) -> Result<Name, AllocError>
    requires { number < length table.now }
    ensures { IfOk result (λ name. name ≡ named (map N.name_of table.now) number) }
{
    table[number as usize].name().copied(alloc)
}

// Copies of the names of the numbers, in order.
pub fn copied_names<N: Named>(
    alloc: Global,
    table: &[N],
    numbers: &[u32],
) -> Result<Seq<Name>, AllocError>
    requires { AreBelow (length table.now) numbers.now }
    ensures { IfOk result (λ names. names ≡ map (named (map N.name_of table.now)) numbers.now) }
{
    let mut names = Seq::new(alloc);
    for number in numbers {
        names.push(copied_name(alloc, table, *number)?)?;
    }
    Ok(names)
}
