// The line of an order.

ghost use Rattle.std.specs.Prelude.{◌≡◌, ℕ, List, false, IfOk, IsTrue, MatchOption};
ghost use Rattle.bril_tree.specs.Identifier.{is_identifier};
ghost use Rattle.monitor_script.specs.declared.order.Order.{Order};
ghost use Rattle.monitor_script.specs.declared.order.Order.TheVariants.{Clear};
ghost use Rattle.monitor_script.specs.Form.{IsOrder, IsPoint, order_line, order_of, point_text};

use crate::item::read_item;
use crate::lines::{behind, split_at_byte};
use crate::order::Order;
use bril_tree::name::is_ident;
use bril_tree::text::Text;
use std::alloc::{AllocError, Global};

// An order whose name stands in the source.
#[derive(Clone, Copy, Drop)]
pub enum OrderRef<'a> {
    Break { func: &'a str, item: u32 },
    Clear { func: &'a str, item: u32 },
    Go,
    Step,
    Show,
}

// The order of a line; None where it is none's. Takes no memory.
pub fn order_in(line: &[u8]) -> Option<OrderRef<'_>>
    ensures { MatchOption result
        ((order : Order) → IsOrder order → line.now ≡ order_line order → ⊥)
        (λ text. (line.now ≡ order_line (order_of text)) × IsOrder (order_of text)) }
{
    if line == b"go".as_slice() {
        return Some(OrderRef::Go);
    }
    if line == b"step".as_slice() {
        return Some(OrderRef::Step);
    }
    if line == b"show".as_slice() {
        return Some(OrderRef::Show);
    }
    let Some(rest) = behind(line, b"break @") else {
        return clear_in(line);
    };
    let Some((func, item)) = point_in(rest) else {
        return None;
    };
    Some(OrderRef::Break { func, item })
}

// The order of a line that begins with `clear`; None where it is none's.
fn clear_in(line: &[u8]) -> Option<OrderRef<'_>>
    ensures { MatchOption result
        ((func : List ℕ) (item : ℕ) → IsPoint func item → line.now ≡ order_line (Clear func item) → ⊥)
        (λ text. (line.now ≡ order_line (order_of text)) × IsOrder (order_of text)) }
{
    let Some(rest) = behind(line, b"clear @") else {
        return None;
    };
    let Some((func, item)) = point_in(rest) else {
        return None;
    };
    Some(OrderRef::Clear { func, item })
}

// The function and the item behind `@`; None where they are none.
fn point_in(rest: &[u8]) -> Option<(&str, u32)>
    ensures { MatchOption result
        ((func : List ℕ) (item : ℕ) → IsPoint func item → rest.now ≡ point_text func item → ⊥)
        (λ p. (rest.now ≡ point_text p.0.now p.1) × IsPoint p.0.now p.1) }
{
    let Some((name, digits)) = split_at_byte(rest, b' ') else {
        return None;
    };
    let Some(func) = identifier_in(name) else {
        return None;
    };
    let Some(item) = read_item(digits) else {
        return None;
    };
    Some((func, item))
}

// The bytes as text, where they are an identifier; None where they are none.
fn identifier_in(name: &[u8]) -> Option<&str>
    ensures { MatchOption result (is_identifier name.now ≡ false) (λ text. (text.now ≡ name.now) × IsTrue (is_identifier name.now)) }
{
    if !is_ident(name) {
        return None;
    }
    match str::from_utf8(name) {
        Ok(text) => Some(text),
        Err(_) => None,
    }
}

// The order of this text, with a name of its own.
pub fn own_order(alloc: Global, text: OrderRef<'_>) -> Result<Order, AllocError>
    ensures { IfOk result (λ order. order ≡ order_of text.entry) }
{
    match text {
        OrderRef::Break { func, item } => Ok(Order::Break {
            func: Text::of(alloc, func)?,
            item,
        }),
        OrderRef::Clear { func, item } => Ok(Order::Clear {
            func: Text::of(alloc, func)?,
            item,
        }),
        OrderRef::Go => Ok(Order::Go),
        OrderRef::Step => Ok(Order::Step),
        OrderRef::Show => Ok(Order::Show),
    }
}
