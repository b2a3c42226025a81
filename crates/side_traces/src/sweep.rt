// The items of a function with what stands before them, by one sweep.

ghost use Rattle.std.specs.Prelude.{◌≡◌, ◌≢◌, ◌<◌, ◌++◌, ℕ, IfOk, OnOk, length};
ghost use Rattle.side_traces.specs.Rows.{row, with_rows};

use bril_tree::function_tree::Item;
use bril_tree::sequence::Seq;
use std::alloc::{AllocError, Global};
use std::mem;

// Takes out the row of a point.
fn take_row(alloc: Global, rows: &mut Vec<Seq<Item>>, point: usize) -> Seq<Item>
    requires { point < length rows.old.items }
    ensures row { result ≡ row rows.old.items point }
    ensures long { length rows.new.items ≡ length rows.old.items }
    ensures others { (i : ℕ) → i ≢ point → row rows.new.items i ≡ row rows.old.items i }
{
    mem::replace(&mut rows[point], Seq::new(alloc))
}

// Adds these items.
fn append(made: &mut Seq<Item>, items: Seq<Item>) -> Result<(), AllocError>
    ensures { OnOk result (made.new ≡ made.old ++ items) }
{
    for item in items.into_items() {
        made.push(item)?;
    }
    Ok(())
}

/// The items, each behind the row of its point. The only error is out of memory.
pub(crate) fn with_rows(
    alloc: Global,
    mut rows: Vec<Seq<Item>>,
    items: Seq<Item>,
) -> Result<Seq<Item>, AllocError>
    requires { length rows.items ≡ length items }
    ensures { IfOk result (λ made. made ≡ with_rows (row rows.items) 0 items) }
{
    let mut made = Seq::new(alloc);
    let mut point = 0;
    for item in items.into_items() {
        append(&mut made, take_row(alloc, &mut rows, point))?;
        made.push(item)?;
        point += 1;
    }
    Ok(made)
}
