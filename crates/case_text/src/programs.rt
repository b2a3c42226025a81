// The programs of sources, and their arguments.

ghost use Rattle.std.specs.Prelude.{◌<◌, ◌^◌, IfOk, length};
ghost use Rattle.bril_tree.specs.Run.{FitMain};

use crate::fault::LineFault;
use bril_arguments::{ArgFault, read_args};
use bril_checker::{Checked, check};
use bril_names::{NameFault, number};
use bril_text::{TextFault, read_text};
use bril_tree::program::Prog;
use bril_tree::sequence::Seq;
use bril_tree::text::Text;
use bril_tree::value::Value;
use std::alloc::Global;

/// The program that the source is numbered as, which imports nothing.
pub fn program_of(alloc: Global, source: &[u8]) -> Result<Prog, LineFault>
    requires { length source.now < 2 ^ 32 }
{
    let tree = match read_text(alloc, source) {
        Ok(tree) => tree,
        Err(TextFault::Memory) => return Err(LineFault::Memory),
        Err(_) => return Err(LineFault::Form),
    };
    if !tree.imports.as_slice().is_empty() {
        return Err(LineFault::Form);
    }
    match number(alloc, &tree) {
        Ok(prog) => Ok(prog),
        Err(NameFault::Memory) => Err(LineFault::Memory),
        Err(_) => Err(LineFault::Form),
    }
}

/// The program that the source is numbered as, which is accepted.
pub fn checked_of(alloc: Global, source: &[u8]) -> Result<Checked, LineFault>
    requires { length source.now < 2 ^ 32 }
{
    let prog = program_of(alloc, source)?;
    if !prog.is_counted() {
        return Err(LineFault::Form);
    }
    match check(alloc, prog) {
        Ok(checked) => Ok(checked),
        Err(_) => Err(LineFault::Form),
    }
}

/// The arguments that the words spell.
pub fn values_of(alloc: Global, checked: &Checked, words: &[Text]) -> Result<Seq<Value>, LineFault>
    requires { length words.now < 2 ^ 32 }
    ensures { IfOk result (λ values. FitMain checked.now.prog values) }
{
    match read_args(alloc, checked.prog(), words) {
        Ok(values) => Ok(values),
        Err(ArgFault::Memory) => Err(LineFault::Memory),
        Err(_) => Err(LineFault::Form),
    }
}
