// The items of the demo program, one by one.

ghost use Rattle.std.specs.Prelude.{◌≡◌, ◌∷◌, [], IfOk, IsTrue};
ghost use Rattle.bril_demo.specs.Demo.{binary, branch, call, constant, give_back, jump, label, plain, print};
ghost use Rattle.bril_tree.specs.Identifier.{is_identifier};
ghost use Rattle.bril_tree.specs.Numbered.{typed_name};

use bril_tree::function_tree::{Dest, Item};
use bril_tree::name::Name;
use bril_tree::operation::Op;
use bril_tree::sequence::Seq;
use bril_tree::types::{Base, Ty};
use bril_tree::value::Lit;
use std::alloc::{AllocError, Global};

/// A type that is no pointer.
pub(crate) fn plain(base: Base) -> Ty
    ensures { result ≡ plain base }
{
    Ty { depth: 0, base }
}

/// A variable with a type that is no pointer.
pub(crate) fn typed(alloc: Global, variable: &[u8], base: Base) -> Result<Dest, AllocError>
    requires { IsTrue (is_identifier variable.now) }
    ensures { IfOk result (λ dest. dest ≡ typed_name variable.now (plain base)) }
{
    Ok(Dest {
        name: Name::of_identifier(alloc, variable)?,
        ty: plain(base),
    })
}

/// A list of one name.
fn one(alloc: Global, bytes: &[u8]) -> Result<Seq<Name>, AllocError>
    requires { IsTrue (is_identifier bytes.now) }
    ensures { IfOk result (λ names. names ≡ bytes.now ∷ []) }
{
    let mut names = Seq::new(alloc);
    names.push(Name::of_identifier(alloc, bytes)?)?;
    Ok(names)
}

/// A list of two names.
fn two(alloc: Global, first: &[u8], second: &[u8]) -> Result<Seq<Name>, AllocError>
    requires first { IsTrue (is_identifier first.now) }
    requires second { IsTrue (is_identifier second.now) }
    ensures { IfOk result (λ names. names ≡ first.now ∷ second.now ∷ []) }
{
    let mut names = one(alloc, first)?;
    names.push(Name::of_identifier(alloc, second)?)?;
    Ok(names)
}

pub(crate) fn label(alloc: Global, at: &[u8]) -> Result<Item, AllocError>
    requires { IsTrue (is_identifier at.now) }
    ensures { IfOk result (λ item. item ≡ label at.now) }
{
    Ok(Item::Label(Name::of_identifier(alloc, at)?))
}

/// An int.
pub(crate) fn constant(alloc: Global, variable: &[u8], value: u32) -> Result<Item, AllocError>
    requires { IsTrue (is_identifier variable.now) }
    ensures { IfOk result (λ item. item ≡ constant variable.now value) }
{
    Ok(Item::Const {
        dest: Name::of_identifier(alloc, variable)?,
        ty: plain(Base::Int),
        value: Lit::Int(i64::from(value)),
    })
}

/// An operation on two variables.
pub(crate) fn binary(
    alloc: Global,
    variable: &[u8],
    base: Base,
    op: Op,
    left: &[u8],
    right: &[u8],
) -> Result<Item, AllocError>
    requires variable { IsTrue (is_identifier variable.now) }
    requires left { IsTrue (is_identifier left.now) }
    requires right { IsTrue (is_identifier right.now) }
    ensures { IfOk result (λ item. item ≡ binary variable.now base op left.now right.now) }
{
    Ok(Item::Act {
        dest: Some(typed(alloc, variable, base)?),
        op,
        args: two(alloc, left, right)?,
        funcs: Seq::new(alloc),
        labels: Seq::new(alloc),
    })
}

pub(crate) fn branch(
    alloc: Global,
    condition: &[u8],
    first: &[u8],
    second: &[u8],
) -> Result<Item, AllocError>
    requires condition { IsTrue (is_identifier condition.now) }
    requires first { IsTrue (is_identifier first.now) }
    requires second { IsTrue (is_identifier second.now) }
    ensures { IfOk result (λ item. item ≡ branch condition.now first.now second.now) }
{
    Ok(Item::Act {
        dest: None,
        op: Op::Br,
        args: one(alloc, condition)?,
        funcs: Seq::new(alloc),
        labels: two(alloc, first, second)?,
    })
}

pub(crate) fn jump(alloc: Global, to: &[u8]) -> Result<Item, AllocError>
    requires { IsTrue (is_identifier to.now) }
    ensures { IfOk result (λ item. item ≡ jump to.now) }
{
    Ok(Item::Act {
        dest: None,
        op: Op::Jmp,
        args: Seq::new(alloc),
        funcs: Seq::new(alloc),
        labels: one(alloc, to)?,
    })
}

/// The end of a function that gives back a variable.
pub(crate) fn give_back(alloc: Global, variable: &[u8]) -> Result<Item, AllocError>
    requires { IsTrue (is_identifier variable.now) }
    ensures { IfOk result (λ item. item ≡ give_back variable.now) }
{
    Ok(Item::Act {
        dest: None,
        op: Op::Ret,
        args: one(alloc, variable)?,
        funcs: Seq::new(alloc),
        labels: Seq::new(alloc),
    })
}

pub(crate) fn print(alloc: Global, variable: &[u8]) -> Result<Item, AllocError>
    requires { IsTrue (is_identifier variable.now) }
    ensures { IfOk result (λ item. item ≡ print variable.now) }
{
    Ok(Item::Act {
        dest: None,
        op: Op::Print,
        args: one(alloc, variable)?,
        funcs: Seq::new(alloc),
        labels: Seq::new(alloc),
    })
}

/// A call of a function with one argument, whose int goes to a variable.
pub(crate) fn call(
    alloc: Global,
    variable: &[u8],
    callee: &[u8],
    argument: &[u8],
) -> Result<Item, AllocError>
    requires variable { IsTrue (is_identifier variable.now) }
    requires callee { IsTrue (is_identifier callee.now) }
    requires argument { IsTrue (is_identifier argument.now) }
    ensures { IfOk result (λ item. item ≡ call variable.now callee.now argument.now) }
{
    Ok(Item::Act {
        dest: Some(typed(alloc, variable, Base::Int)?),
        op: Op::Call,
        args: one(alloc, argument)?,
        funcs: one(alloc, callee)?,
        labels: Seq::new(alloc),
    })
}
