// A function whose variables, labels and calls are numbers.

ghost use Rattle.bril_tree.specs.FunctionForm.{IsFunctionForm, IsFunctionForm-prop};

use crate::name::Name;
use crate::numbered::{Instr, VarInfo};
use crate::sequence::Seq;
use crate::types::Ty;

/// A function. Variables are numbered by their place in `vars`, labels by their place in `labels`, and
/// items by their place in `code`, all from 0. The first `args` variables are the arguments; the others
/// follow in the order of their first appearance, in an item the destination first.
#[derive(Drop)]
pub struct Func {
    pub name: Name,
    pub args: u32,
    pub vars: Seq<VarInfo>,
    pub labels: Seq<Name>,
    pub ret: Option<Ty>,
    pub code: Seq<Instr>,
    pub ghost formed: { IsFunctionForm args vars labels code } by { IsFunctionForm-prop args vars labels code },
}
