// The shape of an item: whether it has a destination, and how many arguments, functions and labels.

ghost use Rattle.std.specs.Prelude.{◌≡◌, ◌^◌, ◌<◌, length, is_some};
ghost use Rattle.bril_tree.specs.Shape.{shape_of as operation_shape, is_action_shaped, is_shaped, shape_fault_of};

use crate::numbered::Instr;
use crate::numbered_function::Func;
use crate::operation::Op;

impl Func {
    /// The first item of the function that doesn't have the shape of its operation: a destination or none, and so many
    /// arguments, functions and labels. None exactly where there is no such item. Of a `call` it asks for one function
    /// and no label, and of a `print` for no destination, function or label. The function has fewer than 2^32 items.
    /// Takes no memory.
    pub fn shape_fault(&self) -> Option<u32>
        requires { length self.now.code < 2 ^ 32 }
        ensures { result ≡ shape_fault_of (is_some self.now.ret) self.now.code }
    {
        first_misshapen(self.ret.is_some(), self.code.as_slice())
    }
}
// What an operation has: a destination or none, so many arguments, no function, and so many labels.
#[derive(Clone, Copy, Drop)]
struct Shape {
    dest: bool,
    args: usize,
    labels: usize,
}

// The shape of an operation other than `call` and `print`, in a function that returns a value or doesn't.
fn shape_of(returns: bool, op: Op) -> Shape
    ensures dest { result.dest ≡ (operation_shape returns op).dest }
    ensures args { result.args ≡ (operation_shape returns op).args }
    ensures labels { result.labels ≡ (operation_shape returns op).labels }
{
    let (dest, args, labels) = match op {
        Op::Get | Op::Undef => (true, 0, 0),
        Op::Not | Op::Id | Op::Alloc | Op::Load | Op::CharToInt | Op::IntToChar => (true, 1, 0),
        Op::Add | Op::Sub | Op::Mul | Op::Div | Op::And | Op::Or | Op::PtrAdd => (true, 2, 0),
        Op::Eq | Op::Lt | Op::Gt | Op::Le | Op::Ge => (true, 2, 0),
        Op::Ceq | Op::Clt | Op::Cgt | Op::Cle | Op::Cge => (true, 2, 0),
        Op::Nop | Op::Call | Op::Print | Op::Speculate | Op::Commit => (false, 0, 0),
        Op::Jmp => (false, 0, 1),
        Op::Br => (false, 1, 2),
        Op::Guard => (false, 1, 1),
        Op::Free => (false, 1, 0),
        Op::Store | Op::Set => (false, 2, 0),
        Op::Ret => (false, usize::from(returns), 0),
    };
    Shape { dest, args, labels }
}

// Whether an operation has its shape, with or without a destination and with so many of each operand.
fn has_shape(returns: bool, op: Op, dest: bool, args: usize, funcs: usize, labels: usize) -> bool
    ensures { result ≡ is_action_shaped returns op dest args funcs labels }
{
    match op {
        Op::Call => funcs == 1 && labels == 0,
        Op::Print => !dest && funcs == 0 && labels == 0,
        _ => {
            let shape = shape_of(returns, op);
            dest == shape.dest && args == shape.args && funcs == 0 && labels == shape.labels
        }
    }
}

// Whether the item has the shape of its operation, in a function that returns a value or doesn't.
fn fits_shape(returns: bool, item: &Instr) -> bool
    ensures { result ≡ is_shaped returns item.now }
{
    match item {
        Instr::Label(_) | Instr::Const { .. } => true,
        Instr::Act {
            dest,
            op,
            args,
            funcs,
            labels,
            ..
        } => has_shape(
            returns,
            *op,
            dest.is_some(),
            args.as_slice().len(),
            funcs.as_slice().len(),
            labels.as_slice().len(),
        ),
    }
}

// The first of the items that doesn't have the shape of its operation.
fn first_misshapen(returns: bool, items: &[Instr]) -> Option<u32>
    requires { length items.now < 2 ^ 32 }
    ensures { result ≡ shape_fault_of returns items.now }
{
    for (number, item) in items.iter().enumerate() {
        if !fits_shape(returns, item) {
            return Some(number as u32);
        }
    }
    None
}
