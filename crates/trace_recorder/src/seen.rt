// What a state of the run shows.

ghost use Rattle.std.specs.Prelude.{◌≡◌, Some, MatchOption, slice_index};
ghost use Rattle.bril_interpreter.specs.Interpreter.{state_of, newest_frame};
ghost use Rattle.bril_tree.specs.State.{Frame, read};
ghost use Rattle.bril_tree.specs.Outcome.{bool_of};
ghost use Rattle.bril_tree.specs.Step.{code_of};
ghost use Rattle.trace_recorder.specs.Kept.{sight_seen};
ghost use Rattle.trace_recorder.specs.Sight as shown;
ghost use Rattle.trace_recorder.specs.Sight.{sight};

use bril_interpreter::Interp;
use bril_tree::numbered::Instr;
use bril_tree::operation::Op;
use bril_tree::program::Prog;
use bril_tree::value::Value;

// Where the newest frame stands, its item, and which way a `br` there goes: true to its first label.
#[derive(Clone, Copy, Drop)]
pub struct Seen<'a> {
    pub func: u32,
    pub point: u32,
    pub item: &'a Instr,
    pub choice: bool,
}

// What the state shows; None where the run ended, or the newest frame stands at its function's end.
pub fn seen_at<'a>(now: &'a Interp<'_>) -> Option<Seen<'a>>
    ensures { sight_seen result ≡ sight now.now.checked.prog (state_of now.now) }
{
    let Some(here) = now.here() else {
        return None;
    };
    let Some(item) = items_of(now.prog().prog(), here.func).get(here.item as usize) else {
        return None;
    };
    Some(Seen {
        func: here.func,
        point: here.item,
        item,
        choice: choice_at(now, item),
    })
}

// The items of a function; none where the program lacks it.
pub fn items_of(prog: &Prog, func: u32) -> &[Instr]
    ensures { result.now ≡ code_of prog.now func }
{
    match prog.funcs.as_slice().get(func as usize) {
        Some(func) => func.code.as_slice(),
        None => &[],
    }
}

// Which way the item goes if it is a `br`; false for any other.
fn choice_at(now: &Interp<'_>, item: &Instr) -> bool
    ensures { (frame : Frame) → newest_frame (state_of now.now) ≡ Some frame → result ≡ shown.choice_at item.now frame.locations }
{
    match item {
        Instr::Act {
            op: Op::Br,
            args,
            ..
        } => condition(now, first_of(args.as_slice())),
        _ => false,
    }
}

// The first of these variables, 0 where there is none.
fn first_of(args: &[u32]) -> u32
    ensures { result ≡ slice_index args.now 0 }
{
    match args.get(0) {
        Some(var) => *var,
        None => 0,
    }
}

// Whether a variable of the newest frame is true.
fn condition(now: &Interp<'_>, var: u32) -> bool
    ensures { (frame : Frame) → newest_frame (state_of now.now) ≡ Some frame → result ≡ bool_of (read frame.locations.vars var) }
{
    match now.value(var) {
        Some(Value::Bool(choice)) => choice,
        _ => false,
    }
}
