// Names that no variable has.

ghost use Rattle.std.specs.Prelude.{◌≡◌, ◌≤◌, ◌*◌, ◌++◌, ◌∷◌, [], nat_eq, IfOk, IsTrue};
ghost use Rattle.std.specs.List.{starts_with};
ghost use Rattle.bril_tree.specs.Identifier.{is_identifier};
ghost use Rattle.ssa_exit.specs.Fresh.{count_beginning, shadow_name};

use bril_tree::name::Name;
use bril_tree::numbered::VarInfo;
use std::alloc::{AllocError, Global};

// A stem with which no name of these variables begins: `shadow`, or `shadow` and some digits.
pub(crate) fn free_stem(alloc: Global, vars: &[VarInfo]) -> Result<Vec<u8>, AllocError>
    ensures free { IfOk result (λ stem. count_beginning stem.items vars.now ≡ 0) }
    ensures ident { IfOk result (λ stem. IsTrue (is_identifier stem.items)) }
{
    let mut stem = Vec::from_slice(alloc, b"shadow".as_slice())?;
    let mut count = begin_with(vars, stem.as_slice());
    while count > 0 {
        stem = longer_stem(alloc, vars, stem.as_slice())?;
        count = begin_with(vars, stem.as_slice());
    }
    Ok(stem)
}

// Whether the name of the variable begins with the stem.
fn begins(var: &VarInfo, stem: &[u8]) -> bool
    ensures { result ≡ starts_with nat_eq var.now.name stem.now }
{
    var.name.as_bytes().starts_with(stem)
}

// How many variables have names that begin with the stem.
fn begin_with(vars: &[VarInfo], stem: &[u8]) -> usize
    ensures { result ≡ count_beginning stem.now vars.now }
{
    vars.iter().filter(|var| begins(*var, stem)).count()
}

// The stem with one digit more, with which at most half as many names begin.
fn longer_stem(alloc: Global, vars: &[VarInfo], stem: &[u8]) -> Result<Vec<u8>, AllocError>
    requires { IsTrue (is_identifier stem.now) }
    ensures half { IfOk result (λ longer. 2 * count_beginning longer.items vars.now ≤ count_beginning stem.now vars.now) }
    ensures ident { IfOk result (λ longer. IsTrue (is_identifier longer.items)) }
{
    let zero = with_digit(alloc, stem, b'0')?;
    let one = with_digit(alloc, stem, b'1')?;
    if begin_with(vars, one.as_slice()) < begin_with(vars, zero.as_slice()) {
        return Ok(one);
    }
    Ok(zero)
}

// The stem with the digit behind it.
fn with_digit(alloc: Global, stem: &[u8], digit: u8) -> Result<Vec<u8>, AllocError>
    ensures { IfOk result (λ longer. longer.items ≡ stem.now ++ digit ∷ []) }
{
    let mut longer = Vec::from_slice(alloc, stem)?;
    longer.push(digit)?;
    Ok(longer)
}

// The name for the shadow of the variable of this name.
pub(crate) fn shadow_name(alloc: Global, stem: &[u8], name: &Name) -> Result<Name, AllocError>
    requires { IsTrue (is_identifier stem.now) }
    ensures { IfOk result (λ made. made ≡ shadow_name stem.now name.now) }
{
    let mut bytes = Vec::from_slice(alloc, stem)?;
    bytes.push(b'.')?;
    bytes.extend_from_slice(name.as_bytes())?;
    Name::of_identifier(alloc, bytes.as_slice())
}
