// Variables that copies relate, which share a class where that may be.

use crate::wishes::push_both;
use bril_tree::numbered::Instr;
use bril_tree::numbered_function::Func;
use flow_graph::{Access, AccessLists};
use graph_search::number_of_length;
use std::alloc::{AllocError, Global};
use variable_renaming::{dest_of, source_of};

// Adds the variables of the item, where it copies one to the other.
fn push_copy(list: &mut Vec<Access>, item: &Instr) -> Result<(), AllocError> {
    if let (Some(x), Some(y)) = (dest_of(item), source_of(item)) {
        push_both(list, x, y)?;
    }
    Ok(())
}

// The variables that a copy relates to another, each in the rows of both. A function with 2^31 - 1 copies or more is taken to need
// more memory than there is.
pub(crate) fn copies_in(alloc: Global, func: &Func) -> Result<AccessLists, AllocError> {
    let mut list = Vec::new(alloc);
    for item in func.code.as_slice() {
        push_copy(&mut list, item)?;
    }
    number_of_length(list.len())?;
    let copies = AccessLists::of(alloc, list)?;
    Ok(copies)
}
