// Whether two items are equal.

ghost use Rattle.std.specs.Prelude.{◌≡◌, ◌↔◌, IsTrue};
ghost use Rattle.bril_tree.specs.declared.numbered.Instr.TheVariants as instr;

use bril_tree::numbered::Instr;
use bril_tree::operation::Op;
use bril_tree::sequence::Seq;
use bril_tree::types::Ty;
use bril_tree::typing::{same_result, same_type};
use bril_tree::value::Lit;

// Whether two lists are equal.
fn same_numbers(first: &Seq<u32>, second: &Seq<u32>) -> bool
    ensures { IsTrue result ↔ (first.now ≡ second.now) }
{
    first.as_slice() == second.as_slice()
}

// Whether two destinations are equal, or there are none.
fn same_dest(first: Option<u32>, second: Option<u32>) -> bool
    ensures { IsTrue result ↔ (first ≡ second) }
{
    match first {
        None => second.is_none(),
        Some(one) => match second {
            None => false,
            Some(other) => one == other,
        },
    }
}

// Whether two operations are equal.
fn same_operation(first: Op, second: Op) -> bool
    ensures { IsTrue result ↔ (first ≡ second) }
{
    first == second
}

// Whether two literals are equal.
fn same_literal(first: Lit, second: Lit) -> bool
    ensures { IsTrue result ↔ (first ≡ second) }
{
    match first {
        Lit::Int(one) => match second {
            Lit::Int(other) => one == other,
            _ => false,
        },
        Lit::Bool(one) => match second {
            Lit::Bool(other) => one == other,
            _ => false,
        },
        Lit::Char(one) => match second {
            Lit::Char(other) => one == other,
            _ => false,
        },
    }
}

// Whether two types are equal.
fn equal_types(first: Ty, second: Ty) -> bool
    ensures { IsTrue result ↔ (first ≡ second) }
{
    same_type(first, second)
}

// Whether two types are equal, or there are none.
fn equal_results(first: Option<Ty>, second: Option<Ty>) -> bool
    ensures { IsTrue result ↔ (first ≡ second) }
{
    same_result(first, second)
}

// Whether the item is this label.
fn is_label(item: &Instr, label: u32) -> bool
    ensures { IsTrue result ↔ (instr.Label label ≡ item.now) }
{
    match item {
        Instr::Label(other) => label == *other,
        _ => false,
    }
}

// Whether the item is this `const`.
fn is_const(item: &Instr, dest: u32, ty: Ty, value: Lit) -> bool
    ensures { IsTrue result ↔ (instr.Const dest ty value ≡ item.now) }
{
    let Instr::Const {
        dest: other_dest,
        ty: other_ty,
        value: other_value,
    } = item
    else {
        return false;
    };
    if dest != *other_dest {
        return false;
    }
    if !equal_types(ty, *other_ty) {
        return false;
    }
    same_literal(value, *other_value)
}

// The destination, the type and the operation of an action.
#[derive(Clone, Copy, Drop)]
struct Head {
    dest: Option<u32>,
    ty: Option<Ty>,
    op: Op,
}

// Whether two actions have the same destination, type and operation.
fn same_head(first: Head, second: Head) -> bool
    ensures { IsTrue result ↔ (first ≡ second) }
{
    if !same_dest(first.dest, second.dest) {
        return false;
    }
    if !equal_results(first.ty, second.ty) {
        return false;
    }
    same_operation(first.op, second.op)
}

// Whether the item is this action.
fn is_action(item: &Instr, head: Head, args: &Seq<u32>, funcs: &Seq<u32>, labels: &Seq<u32>) -> bool
    ensures { IsTrue result ↔ (instr.Act head.dest head.ty head.op args.now funcs.now labels.now ≡ item.now) }
{
    let Instr::Act {
        dest,
        ty,
        op,
        args: other_args,
        funcs: other_funcs,
        labels: other_labels,
    } = item
    else {
        return false;
    };
    let other = Head {
        dest: *dest,
        ty: *ty,
        op: *op,
    };
    if !same_head(head, other) {
        return false;
    }
    if !same_numbers(args, other_args) {
        return false;
    }
    if !same_numbers(funcs, other_funcs) {
        return false;
    }
    same_numbers(labels, other_labels)
}

// Whether two items are equal.
pub(crate) fn same_item(first: &Instr, second: &Instr) -> bool
    ensures { IsTrue result ↔ (first.now ≡ second.now) }
{
    match first {
        Instr::Label(label) => is_label(second, *label),
        Instr::Const { dest, ty, value } => is_const(second, *dest, *ty, *value),
        Instr::Act {
            dest,
            ty,
            op,
            args,
            funcs,
            labels,
        } => {
            let head = Head {
                dest: *dest,
                ty: *ty,
                op: *op,
            };
            is_action(second, head, args, funcs, labels)
        }
    }
}
