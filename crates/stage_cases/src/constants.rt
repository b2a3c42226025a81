// Tables of constants.

ghost use Rattle.std.specs.Prelude.{◌<◌, ◌^◌, length};

use crate::first::first_function;
use crate::row::add_line;
use bril_tree::numbered::VarInfo;
use case_text::{LineFault, checked_of};
use constant_pass::constants::{ConstTable, table};
use std::alloc::{AllocError, Global};

/// Appends the table of constants of the first function of the source's program: what each variable and its shadow hold, and
/// which points are reached.
pub fn add_constants(alloc: Global, source: &[u8], shown: &mut Vec<u8>) -> Result<(), LineFault>
    requires { length source.now < 2 ^ 32 }
{
    let checked = checked_of(alloc, source)?;
    let func = first_function(checked.prog())?;
    let count = func.code.as_slice().len();
    let constants = table(alloc, &checked, 0)?;
    add_known(alloc, &constants, func.vars.as_slice(), shown)?;
    add_reached(alloc, &constants, count as u32, shown)?;
    Ok(())
}

// Appends what each variable and its shadow hold.
fn add_known(
    alloc: Global,
    constants: &ConstTable,
    vars: &[VarInfo],
    shown: &mut Vec<u8>,
) -> Result<(), AllocError>
    requires { length vars.now < 2 ^ 32 }
{
    for (number, var) in vars.iter().enumerate() {
        let variable = constants.var(number as u32);
        let shadow = constants.shadow(number as u32);
        let line = format!(in alloc; " {variable:?} shadow {shadow:?}")?;
        shown.extend_from_slice(var.name.as_bytes())?;
        add_line(line.as_str(), shown)?;
    }
    Ok(())
}

// Appends the numbers of the points that are reached.
fn add_reached(
    alloc: Global,
    constants: &ConstTable,
    count: u32,
    shown: &mut Vec<u8>,
) -> Result<(), AllocError> {
    shown.extend_from_slice(b"reached")?;
    for point in 0..=count {
        if constants.reached(point) {
            let number = format!(in alloc; " {point}")?;
            shown.extend_from_slice(number.as_bytes())?;
        }
    }
    add_line("", shown)
}
