// What printed variables hold.

ghost use Rattle.std.specs.Prelude.{◌≡◌, map, IfOk};
ghost use Rattle.bril_tree.specs.Typing.{variable_type};
ghost use Rattle.slot_code.specs.Lowered.{kind_of, printed_as};

use crate::item::Printed;
use bril_tree::numbered::VarInfo;
use bril_tree::sequence::Seq;
use bril_tree::types::Base;
use std::alloc::{AllocError, Global};

// The variables that are printed, with what they hold.
pub fn printed_args(
    alloc: Global,
    vars: &[VarInfo],
    args: &[u32],
) -> Result<Seq<Printed>, AllocError>
    ensures { IfOk result (λ printed. printed ≡ map (printed_as vars.now) args.now) }
{
    let mut printed = Seq::new(alloc);
    for variable in args {
        printed.push(printed_as(vars, *variable))?;
    }
    Ok(printed)
}

// A variable that is printed, with what it holds.
fn printed_as(vars: &[VarInfo], variable: u32) -> Printed
    ensures { result ≡ printed_as vars.now variable }
{
    Printed {
        variable,
        kind: kind_at(vars, variable),
    }
}

// The base of a variable's type.
fn kind_at(vars: &[VarInfo], variable: u32) -> Base
    ensures { result ≡ kind_of (variable_type vars.now variable) }
{
    match vars.get(variable as usize) {
        None => Base::Int,
        Some(info) => match info.ty {
            None => Base::Int,
            Some(ty) => ty.base,
        },
    }
}
