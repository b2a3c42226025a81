// Runs, a step at a time.

ghost use Rattle.std.specs.Prelude.{◌<◌, ◌^◌, IfOk, length};
ghost use Rattle.bril_tree.specs.Run.{FitMain};

use crate::row::add_line;
use bril_arguments::{ArgFault, read_args};
use bril_checker::Checked;
use bril_interpreter::{Interp, StepAnswer};
use bril_outside::mem_sink::MemSink;
use bril_tree::limits::Limits;
use bril_tree::sequence::Seq;
use bril_tree::value::Value;
use case_text::{LineFault, add_lines, checked_of};
use std::alloc::{AllocError, Global};

// A run makes no more steps.
const MOST: u32 = 1000;

const LIMITS: Limits = Limits {
    frames: 8,
    cells: 8,
};

/// Appends each step of the run of the source's program, whose `main` has no arguments.
pub fn add_steps(alloc: Global, source: &[u8], shown: &mut Vec<u8>) -> Result<(), LineFault>
    requires { length source.now < 2 ^ 32 }
{
    let checked = checked_of(alloc, source)?;
    let values = values_of(alloc, &checked)?;
    add_run(alloc, &checked, values.as_slice(), shown)?;
    Ok(())
}

/// The arguments of a program whose `main` has none.
pub fn values_of(alloc: Global, checked: &Checked) -> Result<Seq<Value>, LineFault>
    ensures { IfOk result (λ values. FitMain checked.now.prog values) }
{
    match read_args(alloc, checked.prog(), &[]) {
        Ok(values) => Ok(values),
        Err(ArgFault::Memory) => Err(LineFault::Memory),
        Err(_) => Err(LineFault::Form),
    }
}

// Appends each step of a run of the program, and then its output.
fn add_run(
    alloc: Global,
    checked: &Checked,
    values: &[Value],
    shown: &mut Vec<u8>,
) -> Result<(), AllocError>
    requires { FitMain checked.now.prog values.now }
{
    let mut run = Interp::new(alloc, checked, LIMITS, values)?;
    let mut out = MemSink::new(alloc, 100, Seq::new(alloc))?;
    add_frames(alloc, run.prog(), shown)?;
    for _ in 0..MOST {
        if !add_step(alloc, &mut run, &mut out, shown)? {
            break;
        }
    }
    add_failures(alloc, &run, shown)?;
    add_lines(alloc, "", out.bytes(), shown)
}

// Appends how many words a frame of each function has.
fn add_frames(alloc: Global, checked: &Checked, shown: &mut Vec<u8>) -> Result<(), AllocError> {
    let functions = checked.prog().funcs.as_slice().len();
    for func in 0..functions {
        let words = checked.frame_words(func as u32);
        let line = format!(in alloc; "function {func} has frames of {words} words")?;
        add_line(line.as_str(), shown)?;
    }
    Ok(())
}

// Makes a step, appends what it shows, and says whether the run goes on.
fn add_step(
    alloc: Global,
    run: &mut Interp,
    out: &mut MemSink,
    shown: &mut Vec<u8>,
) -> Result<bool, AllocError> {
    let answer = run.step(out);
    let line = match run.here() {
        None => format!(in alloc; "{answer:?}")?,
        Some(here) => {
            let func = here.func;
            let item = here.item;
            let depth = here.depth;
            let value = run.value(0);
            format!(in alloc; "{answer:?} function {func} item {item} saves {depth} {value:?}")?
        }
    };
    add_line(line.as_str(), shown)?;
    Ok(answer == StepAnswer::Go)
}

// Appends the guards of the first function that failed.
fn add_failures(alloc: Global, run: &Interp, shown: &mut Vec<u8>) -> Result<(), AllocError> {
    for item in 0..MOST {
        let failures = run.fails(0, item);
        if failures > 0 {
            let line = format!(in alloc; "guard {item} fails {failures}")?;
            add_line(line.as_str(), shown)?;
        }
    }
    Ok(())
}
