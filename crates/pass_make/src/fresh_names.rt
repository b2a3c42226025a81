// Names that are taken in a function, and fresh ones: with the least number of `_` in front that makes a name new.

ghost use Rattle.std.specs.Prelude.{◌≡◌, ◌↔◌, ◌++◌, ◌∷◌, [], IfOk, IsTrue, OnOk};
ghost use Rattle.std.specs.List.{Contains};
ghost use Rattle.bril_tree.specs.Identifier.{is_identifier};
ghost use Rattle.bril_tree.specs.Numbered.{variable_names};
ghost use Rattle.pass_edit_laws.specs.labels.Fresh.{IsFresh};

use bril_tree::name::Name;
use bril_tree::numbered_function::Func;
use indexmap::IndexSet;
use std::alloc::{AllocError, Global};
use std::marker::Model;

/// The names of one kind that a function has, as clauses see them in order.
#[derive(Drop)]
pub struct TakenNames<'t> {
    held: IndexSet<&'t [u8]>,
}

impl<'t> Model for TakenNames<'t> {
    ghost use Rattle.std.specs.Prelude.{List, ℕ, map};

    ghost Value = { List (List ℕ) };

    ghost view = { λ n. map (λ k. k.now) n.held.keys };
}

// The name with one `_` more in front.
fn with_mark(alloc: Global, name: &[u8]) -> Result<Vec<u8>, AllocError>
    ensures { IfOk result (λ marked. marked.items ≡ 95 ∷ name.now) }
{
    let mut marked = vec![in alloc; b'_']?;
    marked.extend_from_slice(name)?;
    Ok(marked)
}

impl<'t> TakenNames<'t> {
    // No names.
    fn new(alloc: Global) -> TakenNames<'t>
        ensures { result ≡ [] }
    {
        TakenNames {
            held: IndexSet::new(alloc),
        }
    }

    // Puts a new name last.
    fn add(&mut self, name: &'t [u8]) -> Result<(), AllocError>
        requires { ¬ Contains self.old name.now }
        ensures { OnOk result (self.new ≡ self.old ++ name.now ∷ []) }
    {
        self.held.insert(name)?;
        Ok(())
    }

    // Whether the name is taken.
    fn has(&self, name: &[u8]) -> bool
        ensures { IsTrue result ↔ Contains self.now name.now }
    {
        self.held.get_index_of(name).is_some()
    }

    /// The base with as few `_` in front as it takes to differ from all that are taken. Takes time in proportion to the
    /// taken names that it has to differ from. The only error is out of memory.
    pub fn fresh(&self, alloc: Global, base: Vec<u8>) -> Result<Name, AllocError>
        requires { IsTrue (is_identifier base.items) }
        ensures { IfOk result (IsFresh self.now base.items) }
    {
        let mut bytes = base;
        'marks: while self.has(bytes.as_slice()) {
            bytes = with_mark(alloc, bytes.as_slice())?;
        }
        Name::of_identifier(alloc, bytes.as_slice())
    }
}

/// The names of the function's labels. The only error is out of memory.
pub fn taken_labels(alloc: Global, func: &Func) -> Result<TakenNames<'_>, AllocError>
    ensures { IfOk result (λ taken. taken ≡ func.now.labels) }
{
    let mut taken = TakenNames::new(alloc);
    for label in func.labels.as_slice() {
        taken.add(label.as_bytes())?;
    }
    Ok(taken)
}

/// The names of the function's variables. The only error is out of memory.
pub fn taken_variables(alloc: Global, func: &Func) -> Result<TakenNames<'_>, AllocError>
    ensures { IfOk result (λ taken. taken ≡ variable_names func.now.vars) }
{
    let mut taken = TakenNames::new(alloc);
    for var in func.vars.as_slice() {
        taken.add(var.name.as_bytes())?;
    }
    Ok(taken)
}
