// The variables of a function while it is numbered.

ghost use Rattle.std.specs.Prelude.{◌≡◌, ◌<◌, ◌∷◌, ◌++◌, [], length, nat_eq, IfOk, OnOk, slice_set, slice_index_or, Option, Some};
ghost use Rattle.std.specs.List.{Contains};
ghost use Rattle.bril_tree.specs.FunctionForm.{typed_if};
ghost use Rattle.bril_tree.specs.Numbered.{variable_names};
ghost use Rattle.bril_tree.specs.declared.numbered.VarInfo.{VarInfo};
ghost use Rattle.bril_names.specs.Numbering.{Finds, Enters, StandsFor, with_type};

use super::names::Names;
use bril_tree::name::Name;
use bril_tree::numbered::VarInfo;
use bril_tree::sequence::Seq;
use bril_tree::types::Ty;
use std::alloc::{AllocError, Global};

/// Variables in the order of their numbers, with a table of their names.
#[derive(Drop)]
pub struct Variables<'t> {
    names: Names<'t>,
    pub infos: Vec<VarInfo>,
    ghost same: { names ≡ variable_names infos.items },
}

impl<'t> Variables<'t> {
    /// No variables; those that come will lie in memory of `alloc`. Takes no memory.
    pub fn new(alloc: Global) -> Variables<'t>
        ensures { result.infos.items ≡ [] }
    {
        Variables {
            names: Names::new(alloc),
            infos: Vec::new(alloc),
        }
    }

    /// The number of a name, and None exactly where it isn't there. Takes no memory.
    pub fn find(&self, name: &Name) -> Option<u32>
        ensures { Finds (variable_names self.now.infos.items) name.now result }
    {
        self.names.find(name.as_bytes())
    }

    /// The number of a name that appears, assigned with a type where there is one. A new variable gets the next
    /// number; one without a type gets this type. An error comes where memory or numbers of 32 bits are wanting.
    pub fn enter(
        &mut self,
        alloc: Global,
        name: &'t Name,
        ty: Option<Ty>,
    ) -> Result<u32, AllocError>
        ensures enters { IfOk result (λ x.
            Enters self.old.infos.items self.new.infos.items (x ∷ []) (λ y. typed_if (nat_eq y x) ty)) }
        ensures named { IfOk result (λ x. StandsFor self.new.infos.items x name.now) }
    {
        match self.find(name) {
            None => self.append(alloc, name, ty),
            Some(number) => {
                self.assign(number, ty);
                Ok(number)
            }
        }
    }

    /// Puts a new variable last, and gives its number. An error comes where memory or numbers of 32 bits are
    /// wanting.
    pub fn append(
        &mut self,
        alloc: Global,
        name: &'t Name,
        ty: Option<Ty>,
    ) -> Result<u32, AllocError>
        requires { ¬ Contains (variable_names self.old.infos.items) name.now }
        ensures number { IfOk result (λ x. x ≡ length self.old.infos.items) }
        ensures infos { OnOk result (self.new.infos.items
            ≡ self.old.infos.items ++ record { name = name.now; ty = ty } ∷ []) }
    {
        let Ok(number) = u32::try_from(self.infos.len()) else {
            return Err(AllocError);
        };
        let info = VarInfo {
            name: name.copied(alloc)?,
            ty,
        };
        self.infos.reserve(1)?;
        self.names.add(name.as_bytes())?;
        self.infos.push(info).unwrap();
        Ok(number)
    }

    // Gives a variable this type where it has none. Takes no memory.
    fn assign(&mut self, number: u32, ty: Option<Ty>)
        requires { number < length self.old.infos.items }
        ensures { (d : VarInfo) → self.new.infos.items
            ≡ slice_set self.old.infos.items number (with_type (slice_index_or self.old.infos.items number d) ty) }
    {
        let place = number as usize;
        self.infos[place].ty = self.infos[place].ty.or(ty);
    }

    /// The variables as a list, without the table.
    pub fn into_infos(self, alloc: Global) -> Result<Seq<VarInfo>, AllocError>
        ensures { IfOk result (λ infos. infos ≡ self.entry.infos.items) }
    {
        let Variables { names: _, infos } = self;
        let mut list = Seq::new(alloc);
        for info in infos {
            list.push(info)?;
        }
        Ok(list)
    }
}
