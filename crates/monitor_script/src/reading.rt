// Reading a script.

ghost use Rattle.std.specs.Prelude.{◌≡◌, ◌<◌, ◌-◌, ◌^◌, ◌∷◌, ◌++◌, ℕ, suc, List, length, IfOk, IfErr, OnOk, IsErrOf, MatchResult};
ghost use Rattle.monitor_script.specs.declared.order.Order.{Order};
ghost use Rattle.monitor_script.specs.declared.fault.ScriptFault.TheVariants.{Line, Memory};
ghost use Rattle.monitor_script.specs.Fault.{HasNoOrder, IsFaultOf, IsFirstFault, IsScriptText};
ghost use Rattle.monitor_script.specs.Form.{IsOrder, IsScript, order_line, order_of};

use crate::fault::ScriptFault;
use crate::lines::split_at_byte;
use crate::order::Order;
use crate::order_text::{OrderRef, order_in, own_order};
use bril_tree::sequence::Seq;
use std::alloc::Global;

/// The orders of a script, in their order. The source has fewer than 2^32 bytes.
///
/// Each line is `break @f N`, `clear @f N`, `go`, `step` or `show`, with single spaces, where `f` is an identifier and N is the item,
/// 0 to 4,294,967,295 in decimal digits without a leading zero. Every line ends with LF, and there is nothing else. An empty source
/// is the script without orders.
///
/// Errors: `Line` with the first line that breaks this, counted from 1. A last line without LF breaks it. `Memory`, when memory runs
/// out for the text of a script: all lines are looked at before any memory is taken.
///
/// Takes time in proportion to the source.
pub fn read_script(alloc: Global, source: &[u8]) -> Result<Seq<Order>, ScriptFault>
    requires { length source.now < 2 ^ 32 }

    // What is read is what the source is the text of, and a text is read.
    ensures text { IfOk result (λ orders. IsScript source.now orders) }
    ensures reads { (orders : List Order) → IsScript source.now orders → MatchResult result (λ found. found ≡ orders) (λ fault. fault ≡ Memory) }

    // The line is the first that breaks the form, and the first that does is answered. Memory is wanting for a text alone.
    ensures fault { IfErr result (IsFaultOf source.now) }
    ensures faults { (line : ℕ) → IsFirstFault source.now line → IsErrOf result (Line line) }
{
    script_of(alloc, source)
}

// The orders of a script.
fn script_of(alloc: Global, source: &[u8]) -> Result<Seq<Order>, ScriptFault>
    requires { length source.now < 2 ^ 32 }
    ensures text { IfOk result (λ orders. IsScript source.now orders) }
    ensures fault { IfErr result (IsFaultOf source.now) }
{
    look_at_lines(source)?;
    read_orders(alloc, source)
}

// Looks for a fault in the lines. Takes no memory.
fn look_at_lines(source: &[u8]) -> Result<(), ScriptFault>
    requires { length source.now < 2 ^ 32 }
    ensures text { OnOk result (IsScriptText source.now) }
    ensures fault { IfErr result (IsFaultOf source.now) }
{
    let mut rest = source;
    let mut before: u32 = 0;
    'lines: while !rest.is_empty() {
        let (_, after) = next_order(rest, before)?;
        rest = after;
        before += 1;
    }
    Ok(())
}

// The orders of the lines, in which there is no fault.
fn read_orders(alloc: Global, source: &[u8]) -> Result<Seq<Order>, ScriptFault>
    requires size { length source.now < 2 ^ 32 }
    requires text { IsScriptText source.now }
    ensures text { IfOk result (λ orders. IsScript source.now orders) }
    ensures fault { IfErr result (IsFaultOf source.now) }
{
    let mut orders = Seq::new(alloc);
    let mut rest = source;
    let mut before: u32 = 0;
    'lines: while !rest.is_empty() {
        let (text, after) = next_order(rest, before)?;
        orders.push(own_order(alloc, text)?)?;
        rest = after;
        before += 1;
    }
    Ok(orders)
}

// The order in the first line of `rest`, which stands behind so many lines, and what stands behind it. Takes no memory.
fn next_order(rest: &[u8], before: u32) -> Result<(OrderRef<'_>, &[u8]), ScriptFault>
    requires { before < 2 ^ 32 - 1 }
    ensures found { IfOk result (λ p. rest.now ≡ order_line (order_of p.0) ++ 10 ∷ p.1.now) }
    ensures valid { IfOk result (λ p. IsOrder (order_of p.0)) }
    ensures fault { IfErr result (λ fault. (fault ≡ Line (suc before)) × HasNoOrder rest.now) }
{
    let Some((line, after)) = split_at_byte(rest, b'\n') else {
        return Err(ScriptFault::Line { line: before + 1 });
    };
    match order_in(line) {
        Some(text) => Ok((text, after)),
        None => Err(ScriptFault::Line { line: before + 1 }),
    }
}
