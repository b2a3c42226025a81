//! The text of a monitor's script. `read_script` gives the orders of which the bytes are the text, or the first line that is none's.
//!
//! 1. The orders (`src/order.rt`), their text, line by line (`specs/Form.antt`), and the first line that breaks the form
//!    (`src/fault.rt`, `specs/Fault.antt`).
//! 2. Reading (`src/reading.rt`): where bytes are cut (`src/lines.rt`), the line of an order (`src/order_text.rt`) and the item in
//!    it (`src/item.rt`).
//! 3. A text is that of one script, and a source has one first fault at most (`specs/Laws.antt`, `src/laws.rt`).
#![tactic(auto)]

mod fault;
mod item;
mod laws;
mod lines;
mod order;
mod order_text;
mod reading;

pub use fault::ScriptFault;
pub use laws::{one_fault, one_script, script_without_fault};
pub use order::Order;
pub use reading::read_script;
