// How many copies there are.

ghost use Rattle.std.specs.Prelude.{◌≡◌};
ghost use Rattle.coalesce.specs.Copies.{copies_in, copies_of_code, is_copy, is_copying, is_named_copy};

use bril_tree::function_tree::Item;
use bril_tree::numbered::Instr;
use bril_tree::operation::Op;

// Whether an operation copies.
fn is_copying(op: Op) -> bool
    ensures { result ≡ is_copying op }
{
    matches!(op, Op::Id)
}

// Whether an item copies.
fn is_copy(item: &Instr) -> bool
    ensures { result ≡ is_copy item.now }
{
    match item {
        Instr::Label(_) => false,
        Instr::Const { .. } => false,
        Instr::Act { op, .. } => is_copying(*op),
    }
}

// Whether an item of a tree copies.
fn is_named_copy(item: &Item) -> bool
    ensures { result ≡ is_named_copy item.now }
{
    match item {
        Item::Label(_) => false,
        Item::Const { .. } => false,
        Item::Act { op, .. } => is_copying(*op),
    }
}

// How many of these items copy.
pub(crate) fn copies_of_code(code: &[Instr]) -> usize
    ensures { result ≡ copies_of_code code.now }
{
    code.iter().filter(|item| is_copy(*item)).count()
}

// How many of these items of a tree copy.
pub(crate) fn copies_in(items: &[Item]) -> usize
    ensures { result ≡ copies_in items.now }
{
    items.iter().filter(|item| is_named_copy(*item)).count()
}
