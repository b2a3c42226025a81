// A function as it is written: names everywhere.

ghost use Rattle.std.specs.Prelude.{◌≡◌, IfOk};

use crate::name::Name;
use crate::operation::Op;
use crate::sequence::Seq;
use crate::types::Ty;
use crate::value::Lit;
use std::alloc::{AllocError, Global};

/// A name with its type: an argument of a function, or the destination of an instruction.
#[derive(Drop)]
pub struct Dest {
    pub name: Name,
    pub ty: Ty,
}

/// A label or an instruction.
#[derive(Drop)]
pub enum Item {
    Label(Name),
    Const {
        dest: Name,
        ty: Ty,
        value: Lit,
    },
    Act {
        dest: Option<Dest>,
        op: Op,
        args: Seq<Name>,
        funcs: Seq<Name>,
        labels: Seq<Name>,
    },
}

/// A function: its arguments, the type that it returns where it returns one, and its items in order.
#[derive(Drop)]
pub struct FuncTree {
    pub name: Name,
    pub args: Seq<Dest>,
    pub ret: Option<Ty>,
    pub code: Seq<Item>,
}

impl Dest {
    /// A copy of the name with its type. The only error is out of memory.
    pub fn copied(&self, alloc: Global) -> Result<Dest, AllocError>
        ensures { IfOk result (λ made. made ≡ self.now) }
    {
        Ok(Dest {
            name: self.name.copied(alloc)?,
            ty: self.ty,
        })
    }
}

impl Item {
    /// A copy of the item. The only error is out of memory.
    pub fn copied(&self, alloc: Global) -> Result<Item, AllocError>
        ensures { IfOk result (λ made. made ≡ self.now) }
    {
        match self {
            Item::Label(name) => Ok(Item::Label(name.copied(alloc)?)),
            Item::Const { dest, ty, value } => Ok(Item::Const {
                dest: dest.copied(alloc)?,
                ty: *ty,
                value: *value,
            }),
            Item::Act {
                dest,
                op,
                args,
                funcs,
                labels,
            } => Ok(Item::Act {
                dest: copied_dest(alloc, dest)?,
                op: *op,
                args: copied_names(alloc, args.as_slice())?,
                funcs: copied_names(alloc, funcs.as_slice())?,
                labels: copied_names(alloc, labels.as_slice())?,
            }),
        }
    }
}

/// A copy of the destination, where there is one. The only error is out of memory.
pub fn copied_dest(alloc: Global, dest: &Option<Dest>) -> Result<Option<Dest>, AllocError>
    ensures { IfOk result (λ made. made ≡ dest.now) }
{
    match dest {
        None => Ok(None),
        Some(dest) => Ok(Some(dest.copied(alloc)?)),
    }
}

/// Copies of the names. The only error is out of memory.
pub fn copied_names(alloc: Global, names: &[Name]) -> Result<Seq<Name>, AllocError>
    ensures { IfOk result (λ made. made ≡ names.now) }
{
    let mut made = Seq::new(alloc);
    for name in names {
        made.push(name.copied(alloc)?)?;
    }
    Ok(made)
}
