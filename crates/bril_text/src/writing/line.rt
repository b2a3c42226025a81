// Lines of the canonical text: labels and instructions.

ghost use Rattle.std.specs.Prelude.{◌≡◌, ◌++◌, OnOk, IfSome, codes};
ghost use Rattle.bril_text.specs.Canonical.{names_text, operands_text, dest_text, item_text};
ghost use Rattle.bril_tree.specs.TreeForm.{IsName, AreNames, IsDest, IsItem};

use crate::writing::part::Part;
use crate::writing::terminal::{put_literal, put_typed};
use bril_tree::bytes::Bytes;
use bril_tree::function_tree::{Dest, Item};
use bril_tree::name::Name;
use bril_tree::sequence::Seq;
use bril_tree::types::Ty;
use bril_tree::value::Lit;
use std::alloc::AllocError;

// Appends the names, each after the sign.
fn put_names(sign: &[u8], names: &Seq<Name>, into: &mut Bytes) -> Result<(), AllocError>
    ensures text { OnOk result (into.new ≡ into.old ++ names_text sign.now names.now) }
    ensures valid { OnOk result (AreNames names.now) }
{
    for name in names.as_slice() {
        into.add(sign)?;
        into.add(name.as_bytes())?;
    }
    Ok(())
}

// Appends the operands: functions, then arguments, then labels.
fn put_operands(
    args: &Seq<Name>,
    funcs: &Seq<Name>,
    labels: &Seq<Name>,
    into: &mut Bytes,
) -> Result<(), AllocError>
    ensures text { OnOk result (into.new ≡ into.old ++ operands_text args.now funcs.now labels.now) }
    ensures valid { OnOk result (AreNames args.now × AreNames funcs.now × AreNames labels.now) }
{
    put_names(b" @", funcs, into)?;
    put_names(b" ", args, into)?;
    put_names(b" .", labels, into)
}

// Appends `dest: type = ` if there is a destination.
fn put_dest(dest: &Option<Dest>, into: &mut Bytes) -> Result<(), AllocError>
    ensures text { OnOk result (into.new ≡ into.old ++ dest_text dest.now) }
    ensures valid { OnOk result (IfSome dest.now IsDest) }
{
    match dest {
        None => Ok(()),
        Some(dest) => {
            put_typed(&dest.name, &dest.ty, into)?;
            into.add(b" = ")
        }
    }
}

// Appends a label.
fn put_label(name: &Name, into: &mut Bytes) -> Result<(), AllocError>
    ensures text { OnOk result (into.new ≡ into.old ++ (codes "." ++ (name.now ++ codes ":\n"))) }
    ensures valid { OnOk result (IsName name.now) }
{
    into.add(b".")?;
    into.add(name.as_bytes())?;
    into.add(b":\n")
}

// Appends a constant.
fn put_const(dest: &Name, ty: &Ty, value: &Lit, into: &mut Bytes) -> Result<(), AllocError>
    ensures text { OnOk result (into.new ≡ into.old ++ item_text (Item.Const dest.now ty.now value.now)) }
    ensures valid { OnOk result (IsItem (Item.Const dest.now ty.now value.now)) }
{
    into.add(b"  ")?;
    put_typed(dest, ty, into)?;
    into.add(b" = const ")?;
    put_literal(value, into)?;
    into.add(b";\n")
}

impl Part for Item {
    ghost canonical = { item_text };

    ghost is_part = { IsItem };

    // A label or an instruction, on a line of its own.
    fn put(&self, into: &mut Bytes) -> Result<(), AllocError> {
        match self {
            Item::Label(name) => put_label(name, into),
            Item::Const { dest, ty, value } => put_const(dest, ty, value, into),
            Item::Act {
                dest,
                op,
                args,
                funcs,
                labels,
            } => {
                into.add(b"  ")?;
                put_dest(dest, into)?;
                into.add(op.name().as_bytes())?;
                put_operands(args, funcs, labels, into)?;
                into.add(b";\n")
            }
        }
    }
}
