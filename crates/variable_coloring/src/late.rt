// The pairs of variables that wait for a second look.

ghost use Rattle.std.specs.Prelude.{◌≡◌, ◌<◌, ◌^◌, ◌-◌, IfOk, OnOk};
ghost use Rattle.variable_coloring.specs.Late.{AddsRows, AreLatePairs, AreRowsOf, turned};
ghost use Rattle.variable_coloring.specs.Pairs.{ArePairs};

use bril_tree::numbered_function::Func;
use flow_graph::{Access, AccessLists};
use graph_search::{is_marked, number_of_length};
use std::alloc::{AllocError, Global};

// The pair of the two in the row of the other one.
fn turned(pair: Access) -> Access
    ensures { result ≡ turned pair }
{
    Access {
        item: pair.location,
        location: pair.item,
    }
}

// Adds the pair to the rows of those of its variables that aren't placed.
fn push_rows(list: &mut Vec<Access>, placed: &[bool], pair: Access) -> Result<(), AllocError>
    ensures { OnOk result (AddsRows placed.now pair list.old.items list.new.items) }
{
    if !is_marked(placed, pair.location as usize) {
        list.push(pair)?;
    }
    if !is_marked(placed, pair.item as usize) {
        list.push(turned(pair))?;
    }
    Ok(())
}

// These pairs in the rows of those of their variables that aren't placed.
fn rows_of(alloc: Global, pairs: &[Access], placed: &[bool]) -> Result<Vec<Access>, AllocError>
    ensures { IfOk result (λ list. AreRowsOf placed.now pairs.now list.items) }
{
    let mut list = Vec::new(alloc);
    for pair in pairs {
        push_rows(&mut list, placed, *pair)?;
    }
    Ok(list)
}

// Of the pairs of a function those of variables that aren't placed, each in its row with all that it meets. A function with
// 2^32 - 1 of them or more is taken to need more memory than there is.
pub(crate) fn late_pairs(
    alloc: Global,
    _func: &Func,
    pairs: &[Access],
    placed: &[bool],
) -> Result<AccessLists, AllocError>
    requires { ArePairs _func.now pairs.now }
    ensures { IfOk result (λ late. AreLatePairs _func.now placed.now late.list) }
{
    let list = rows_of(alloc, pairs, placed)?;
    number_of_length(list.len())?;
    let late = AccessLists::of(alloc, list)?;
    Ok(late)
}
