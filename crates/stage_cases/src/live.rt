// Live locations.

ghost use Rattle.std.specs.Prelude.{◌≡◌, ◌<◌, ◌^◌, length};

use crate::first::first_function;
use crate::row::add_line;
use bril_tree::numbered::VarInfo;
use case_text::{LineFault, checked_of};
use live_sets::Live;
use std::alloc::{AllocError, Global};

/// Appends the variables and the shadows that are live at each point of the first function of the source's program.
pub fn add_live(alloc: Global, source: &[u8], shown: &mut Vec<u8>) -> Result<(), LineFault>
    requires { length source.now < 2 ^ 32 }
{
    let checked = checked_of(alloc, source)?;
    let func = first_function(checked.prog())?;
    let count = func.code.as_slice().len();
    let live = Live::of(alloc, &checked, 0)?;
    for point in 0..=count as u32 {
        add_point(alloc, &live, point, func.vars.as_slice(), shown)?;
    }
    Ok(())
}

// Appends a line with what is live at a point.
fn add_point(
    alloc: Global,
    live: &Live,
    point: u32,
    vars: &[VarInfo],
    shown: &mut Vec<u8>,
) -> Result<(), AllocError>
    requires { length vars.now < 2 ^ 32 }
{
    let line = format!(in alloc; "point {point} variables")?;
    shown.extend_from_slice(line.as_bytes())?;
    add_variables(live, point, vars, shown)?;
    shown.extend_from_slice(b" shadows")?;
    add_shadows(live, point, vars, shown)?;
    add_line("", shown)
}

// Appends the names of the variables that are live at a point.
fn add_variables(
    live: &Live,
    point: u32,
    vars: &[VarInfo],
    shown: &mut Vec<u8>,
) -> Result<(), AllocError>
    requires { length vars.now < 2 ^ 32 }
{
    for (number, var) in vars.iter().enumerate() {
        if live.at(point, number as u32) {
            add_name(var, shown)?;
        }
    }
    Ok(())
}

// Appends the names of the variables whose shadows are live at a point.
fn add_shadows(
    live: &Live,
    point: u32,
    vars: &[VarInfo],
    shown: &mut Vec<u8>,
) -> Result<(), AllocError>
    requires { length vars.now < 2 ^ 32 }
{
    for (number, var) in vars.iter().enumerate() {
        if live.shadow_at(point, number as u32) {
            add_name(var, shown)?;
        }
    }
    Ok(())
}

// Appends a space and the name of a variable.
fn add_name(var: &VarInfo, shown: &mut Vec<u8>) -> Result<(), AllocError> {
    shown.extend_from_slice(b" ")?;
    shown.extend_from_slice(var.name.as_bytes())
}
