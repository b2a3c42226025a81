// How often the guards of a program failed, as the interpreter counts it.

ghost use Rattle.std.specs.Prelude.{◌<◌, ◌^◌, length};

use bril_interpreter::Interp;
use bril_outside::count_sink::CountSink;
use bril_tree::limits::Limits;
use bril_tree::numbered::Instr;
use bril_tree::operation::Op;
use bril_tree::text::Text;
use case_text::{LineFault, checked_of, values_of};
use std::alloc::{AllocError, Global};

// What a run has where no option says it.
const LIMITS: Limits = Limits {
    frames: 8_192,
    cells: 1_048_576,
};

const STEPS: u64 = 1_000_000_000;

/// Interprets the program of a text with the arguments that the words spell, and appends how often each of its guards failed, in
/// the order of functions and items.
pub fn add_fails(
    alloc: Global,
    source: &[u8],
    words: &[Text],
    shown: &mut Vec<u8>,
) -> Result<(), LineFault>
    requires source { length source.now < 2 ^ 32 }
    requires words { length words.now < 2 ^ 32 }
{
    let checked = checked_of(alloc, source)?;
    let values = values_of(alloc, &checked, words)?;
    let mut run = Interp::new(alloc, &checked, LIMITS, values.as_slice())?;
    let mut out = CountSink::new();
    let _answer = run.run(STEPS, &mut out);
    add_guards(alloc, &run, shown)?;
    Ok(())
}

// Appends how often each guard failed in the run.
fn add_guards(alloc: Global, run: &Interp, shown: &mut Vec<u8>) -> Result<(), AllocError> {
    let mut func = 0u32;
    for function in run.prog().prog().funcs.as_slice() {
        let name = function.name.as_bytes();
        add_guards_of(alloc, run, func, name, function.code.as_slice(), shown)?;
        func = func.saturating_add(1);
    }
    Ok(())
}

// Appends how often each guard of a function failed.
fn add_guards_of(
    alloc: Global,
    run: &Interp,
    func: u32,
    name: &[u8],
    items: &[Instr],
    shown: &mut Vec<u8>,
) -> Result<(), AllocError> {
    let mut item = 0u32;
    for instr in items {
        if is_guard(instr) {
            let fails = run.fails(func, item);
            let told = format!(in alloc; " {item} fails {fails}\n")?;
            shown.extend_from_slice(b"guard @")?;
            shown.extend_from_slice(name)?;
            shown.extend_from_slice(told.as_bytes())?;
        }
        item = item.saturating_add(1);
    }
    Ok(())
}

// Whether the item is a guard.
fn is_guard(item: &Instr) -> bool {
    matches!(item, Instr::Act { op: Op::Guard, .. })
}
