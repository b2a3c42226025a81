// A program whose names are numbers.

use crate::name::Name;
use crate::operation::Op;
use crate::sequence::Seq;
use crate::types::Ty;
use crate::value::Lit;

/// A label or an instruction, with the numbers of variables, labels and functions.
#[derive(Drop)]
pub enum Instr {
    Label(u32),
    Const {
        dest: u32,
        ty: Ty,
        value: Lit,
    },
    Act {
        dest: Option<u32>,
        ty: Option<Ty>,
        op: Op,
        args: Seq<u32>,
        funcs: Seq<u32>,
        labels: Seq<u32>,
    },
}

/// A variable: its name, and the type of its first argument or destination, where it has one.
#[derive(Drop)]
pub struct VarInfo {
    pub name: Name,
    pub ty: Option<Ty>,
}
