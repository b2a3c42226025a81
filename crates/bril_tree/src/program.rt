// A program whose names are numbers.

ghost use Rattle.bril_tree.specs.ProgramForm.{IsProgramForm, IsProgramForm-prop};

use crate::numbered_function::Func;
use crate::sequence::Seq;

/// A program: its functions, numbered from 0, and the number of the one that is named `main`.
#[derive(Drop)]
pub struct Prog {
    pub funcs: Seq<Func>,
    pub main: u32,
    pub ghost formed: { IsProgramForm funcs main } by { IsProgramForm-prop funcs main },
}
