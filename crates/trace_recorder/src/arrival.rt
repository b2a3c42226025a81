// Arrivals at labels.

ghost use Rattle.std.specs.Prelude.{◌≡◌};
ghost use Rattle.bril_interpreter.specs.Interpreter.{state_of};
ghost use Rattle.trace_recorder.specs.Sight.{arrival, label_at, sight};

use crate::seen::items_of;
use bril_interpreter::{Here, Interp};
use bril_tree::numbered::Instr;

// An arrival of the newest frame at a label: the function's number, the label's, and its point.
#[derive(Clone, Copy, Drop)]
pub struct Arrival {
    pub func: u32,
    pub label: u32,
    pub point: u32,
}

// The arrival that the state is.
pub fn arrival_at(now: &Interp<'_>) -> Option<Arrival>
    ensures { result ≡ arrival (sight now.now.checked.prog (state_of now.now)) }
{
    let Some(here) = now.here() else {
        return None;
    };
    let Some(item) = items_of(now.prog().prog(), here.func).get(here.item as usize) else {
        return None;
    };
    label_at(here, item)
}

// The arrival where this item stands, if it is a label.
fn label_at(here: Here, item: &Instr) -> Option<Arrival>
    ensures { result ≡ label_at here.func here.item item.now }
{
    match item {
        Instr::Label(label) => Some(Arrival {
            func: here.func,
            label: *label,
            point: here.item,
        }),
        _ => None,
    }
}
