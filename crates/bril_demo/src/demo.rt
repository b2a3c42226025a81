// The functions of the demo program.

ghost use Rattle.std.specs.Prelude.{◌≡◌, ◌≤◌, ◌<◌, ◌++◌, true, IfOk, OnOk};
ghost use Rattle.bril_tree.specs.Identifier.{begins_identifier};
ghost use Rattle.bril_demo.specs.Demo.{calling, demo_function, demo_main, demo_tree, numbered_name, summing};

use crate::items::{binary, branch, call, constant, give_back, jump, label, plain, print, typed};
use bril_tree::function_tree::{FuncTree, Item};
use bril_tree::name::Name;
use bril_tree::operation::Op;
use bril_tree::sequence::Seq;
use bril_tree::tree::Tree;
use bril_tree::types::Base;
use itoa::Buffer;
use std::alloc::{AllocError, Global};

// A loop over i from 0 to n - 1, which sums up i times a, divided by b, less a where that is greater than a.
fn summing(alloc: Global, a: u32, b: u32) -> Result<Seq<Item>, AllocError>
    ensures { IfOk result (λ code. code ≡ summing a b) }
{
    let items = vec![in alloc;
        constant(alloc, b"one", 1)?,
        constant(alloc, b"a", a)?,
        constant(alloc, b"b", b)?,
        constant(alloc, b"s", 0)?,
        constant(alloc, b"i", 0)?,
        label(alloc, b"head")?,
        binary(alloc, b"c", Base::Bool, Op::Lt, b"i", b"n")?,
        branch(alloc, b"c", b"body", b"done")?,
        label(alloc, b"body")?,
        binary(alloc, b"t", Base::Int, Op::Mul, b"i", b"a")?,
        binary(alloc, b"u", Base::Int, Op::Div, b"t", b"b")?,
        binary(alloc, b"s", Base::Int, Op::Add, b"s", b"u")?,
        binary(alloc, b"o", Base::Bool, Op::Gt, b"u", b"a")?,
        branch(alloc, b"o", b"big", b"next")?,
        label(alloc, b"big")?,
        binary(alloc, b"s", Base::Int, Op::Sub, b"s", b"a")?,
        label(alloc, b"next")?,
        binary(alloc, b"i", Base::Int, Op::Add, b"i", b"one")?,
        jump(alloc, b"head")?,
        label(alloc, b"done")?,
        give_back(alloc, b"s")?,
    ]?;
    Ok(Seq::of_items(items))
}

// The letter with the decimal of a number behind it.
fn numbered_name(alloc: Global, letter: u8, number: u32) -> Result<Name, AllocError>
    requires { begins_identifier letter ≡ true }
    ensures { IfOk result (λ name. name ≡ numbered_name letter number) }
{
    let mut bytes = Vec::from_slice(alloc, &[letter])?;
    let mut digits = Buffer::new();
    bytes.extend_from_slice(digits.format(number).as_bytes())?;
    Name::of_identifier(alloc, bytes.as_slice())
}

// Function j of the demo of n functions.
fn demo_function(alloc: Global, n: u32, j: u32) -> Result<FuncTree, AllocError>
    requires few { n ≤ 150 }
    requires within { j < n }
    ensures { IfOk result (λ function. function ≡ demo_function n j) }
{
    let argument = typed(alloc, b"n", Base::Int)?;
    Ok(FuncTree {
        name: numbered_name(alloc, b'f', j)?,
        args: Seq::of_items(vec![in alloc; argument]?),
        ret: Some(plain(Base::Int)),
        code: summing(alloc, (37 * j + 11 * n) % 101 + 1, (53 * j + n) % 97 + 1)?,
    })
}

// Adds what `main` does with function j.
fn add_call(alloc: Global, j: u32, code: &mut Seq<Item>) -> Result<(), AllocError>
    ensures { OnOk result (code.new ≡ code.old ++ calling j) }
{
    let function = numbered_name(alloc, b'f', j)?;
    let value = numbered_name(alloc, b'r', j)?;
    code.push(call(alloc, value.as_bytes(), function.as_bytes(), b"n")?)?;
    code.push(print(alloc, value.as_bytes())?)?;
    Ok(())
}

// It calls the functions in order, and prints what each returns.
fn demo_main(alloc: Global, n: u32) -> Result<FuncTree, AllocError>
    ensures { IfOk result (λ function. function ≡ demo_main n) }
{
    let mut code = Seq::new(alloc);
    code.push(constant(alloc, b"n", 40)?)?;
    for j in 0..n {
        add_call(alloc, j, &mut code)?;
    }
    Ok(FuncTree {
        name: Name::of_identifier(alloc, b"main")?,
        args: Seq::new(alloc),
        ret: None,
        code,
    })
}

/// The demo program of n functions, 150 at most: `f0` to `f` and the decimal of n - 1, and `main`, which have 23 n + 1 items. Each
/// function has an int argument and a loop with constants of its own (`specs/Demo.antt`), and `main` calls them in order with 40
/// and prints what each returns. Fails where memory is lacking.
pub fn demo_tree(alloc: Global, n: u32) -> Result<Tree, AllocError>
    requires { n ≤ 150 }
    ensures { IfOk result (λ tree. tree ≡ demo_tree n) }
{
    let mut funcs = Seq::new(alloc);
    for j in 0..n {
        funcs.push(demo_function(alloc, n, j)?)?;
    }
    funcs.push(demo_main(alloc, n)?)?;
    Ok(Tree {
        imports: Seq::new(alloc),
        funcs,
    })
}
