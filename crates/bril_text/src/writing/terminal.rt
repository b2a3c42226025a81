// Terminals of the canonical text: names, types, literals and operations.

ghost use Rattle.std.specs.Prelude.{◌≡◌, ◌++◌, OnOk, FitsSigned, codes};
ghost use Rattle.std.specs.Char.{IsScalar};
ghost use Rattle.std.specs.Fmt.{signed_decimal};
ghost use Rattle.std.specs.Int.{w64};
ghost use Rattle.std.specs.List.{repeat};
ghost use Rattle.bril_text.specs.Canonical.{type_text, literal_text, inner_char_text};
ghost use Rattle.bril_tree.specs.TreeForm.{IsName, IsLiteral};

use bril_nums::put_int;
use bril_tree::bytes::Bytes;
use bril_tree::name::Name;
use bril_tree::types::Ty;
use bril_tree::value::Lit;
use std::alloc::AllocError;

// Appends the piece `count` times.
fn put_times(count: u8, piece: &[u8], into: &mut Bytes) -> Result<(), AllocError>
    ensures { OnOk result (into.new ≡ into.old ++ repeat count piece.now) }
{
    for _done in 0..count {
        into.add(piece)?;
    }
    Ok(())
}

// Appends the type.
pub fn put_type(ty: &Ty, into: &mut Bytes) -> Result<(), AllocError>
    ensures { OnOk result (into.new ≡ into.old ++ type_text ty.now) }
{
    put_times(ty.depth, b"ptr<", into)?;
    into.add(ty.base.name().as_bytes())?;
    put_times(ty.depth, b">", into)
}

// Appends `name: type`.
pub fn put_typed(name: &Name, ty: &Ty, into: &mut Bytes) -> Result<(), AllocError>
    ensures text { OnOk result (into.new ≡ into.old ++ (name.now ++ (codes ": " ++ type_text ty.now))) }
    ensures valid { OnOk result (IsName name.now) }
{
    into.add(name.as_bytes())?;
    into.add(b": ")?;
    put_type(ty, into)
}

// Appends the plain decimal.
fn put_number(n: i64, into: &mut Bytes) -> Result<(), AllocError>
    ensures text { OnOk result (into.new ≡ into.old ++ signed_decimal n) }
    ensures valid { OnOk result (FitsSigned w64 n) }
{
    let mut digits = [0; 20];
    let length = put_int(n, &mut digits);
    into.add(&digits[..length])
}

// Appends what comes between the quotes of a char literal: an escape, or the character itself.
fn put_inner_char(c: char, into: &mut Bytes) -> Result<(), AllocError>
    ensures { OnOk result (into.new ≡ into.old ++ inner_char_text c) }
{
    match c {
        '\0' => into.add(b"\\0"),
        '\x07' => into.add(b"\\a"),
        '\x08' => into.add(b"\\b"),
        '\t' => into.add(b"\\t"),
        '\n' => into.add(b"\\n"),
        '\x0b' => into.add(b"\\v"),
        '\x0c' => into.add(b"\\f"),
        '\r' => into.add(b"\\r"),
        plain => into.add(plain.encode_utf8(&mut [0; 4]).as_bytes()),
    }
}

// Appends a char literal.
fn put_char(c: char, into: &mut Bytes) -> Result<(), AllocError>
    ensures text { OnOk result (into.new ≡ into.old ++ (codes "'" ++ (inner_char_text c ++ codes "'"))) }
    ensures valid { OnOk result (IsScalar c) }
{
    into.add(b"'")?;
    put_inner_char(c, into)?;
    into.add(b"'")
}

// Appends the literal.
pub fn put_literal(literal: &Lit, into: &mut Bytes) -> Result<(), AllocError>
    ensures text { OnOk result (into.new ≡ into.old ++ literal_text literal.now) }
    ensures valid { OnOk result (IsLiteral literal.now) }
{
    match *literal {
        Lit::Int(n) => put_number(n, into),
        Lit::Bool(true) => into.add(b"true"),
        Lit::Bool(false) => into.add(b"false"),
        Lit::Char(c) => put_char(c, into),
    }
}
