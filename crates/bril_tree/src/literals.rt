// The literals of a program in memory.

ghost use Rattle.std.specs.Prelude.{All};
ghost use Rattle.bril_tree.specs.Literals.{AreLiteralsInRange, IsLiteralInRange};

use crate::numbered::Instr;
use crate::numbered_function::Func;
use crate::program::Prog;
use crate::value::Lit;

// The literal of an item.
fn literal_is_in_range(item: &Instr)
    ensures { IsLiteralInRange item.now }
{
    match item {
        Instr::Label(_) | Instr::Act { .. } => {}
        Instr::Const { value, .. } => match *value {
            Lit::Int(_number) => {}
            Lit::Bool(_truth) => {}
            Lit::Char(_char) => {}
        },
    }
}

// The literals of some items.
fn items_are_in_range(items: &[Instr])
    ensures { All IsLiteralInRange items.now }
{
    for item in items {
        literal_is_in_range(item);
    }
}

/// Each literal of a program in memory is an int of 64 bits, a bool or a scalar value, as laws over all programs ask.
/// The call reads the items, and does nothing else.
pub fn literals_are_in_range(prog: &Prog)
    ensures { AreLiteralsInRange prog.now }
{
    for func in prog.funcs.as_slice() {
        items_are_in_range(func.code.as_slice());
    }
}
