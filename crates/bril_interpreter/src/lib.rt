//! The interpreter: a program runs by its semantics. Each step is exactly the step of the semantics, and the output gets
//! exactly what it prints.
//!
//! 1. The state of a run (`src/interp.rt`): frames (`src/frame.rt`), those that wait (`src/callers.rt`), locals (`src/locals.rt`,
//!    `src/entry.rt`), saves (`src/saves.rt`), operands (`src/operand.rt`), what a program has under a number (`src/lookup.rt`),
//!    and what is kept of a function: its quick items, the points of its labels, looked up once, how often its guards failed, and
//!    what its variables hold at first (`src/table.rt`).
//! 2. Steps and runs (`src/step.rt`), with a file for each group of operations (`src/actions.rt`, `src/calls.rt`,
//!    `src/memory.rt`, `src/printing.rt`, `src/speculation.rt`), and what they answer (`src/answer.rt`, `src/stop.rt`).
//! 3. Small items with resolved operands (`src/quick.rt`), those that stand for several items (`src/joined.rt`), the loop that
//!    runs them (`src/quick_steps.rt`), and the steps before which it counts arrivals at labels (`src/counting.rt`,
//!    `specs/Arrivals.antt`).
#![tactic(auto)]

mod actions;
mod answer;
mod callers;
mod calls;
mod counting;
mod entry;
mod frame;
mod interp;
mod joined;
mod locals;
mod lookup;
mod memory;
mod operand;
mod printing;
mod quick;
mod quick_steps;
mod saves;
mod speculation;
mod step;
mod stop;
mod table;

pub use answer::{Here, StepAnswer};
pub use interp::Interp;
