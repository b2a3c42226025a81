// The operations that compute from variables alone, by how many they take.

ghost use Rattle.std.specs.Prelude.{◌≡◌};
ghost use Rattle.bril_tree.specs.Operators.{binary_of, unary_of, BinaryAreOperations, UnaryAreOperations};

use crate::operation::Op;

/// An operation that computes from one variable: `not` of Bril's core language, and the casts of its character extension.
#[derive(Clone, Copy, PartialEq, Eq, Debug, Drop)]
pub enum UnaryOp {
    Not,
    CharToInt,
    IntToChar,
}

/// An operation that computes from two variables: the arithmetic, comparisons and logic of Bril's core language, the
/// comparisons of its character extension, and `ptradd` of its memory extension.
#[derive(Clone, Copy, PartialEq, Eq, Debug, Drop)]
pub enum BinaryOp {
    Add,
    Sub,
    Mul,
    Div,
    Eq,
    Lt,
    Gt,
    Le,
    Ge,
    Ceq,
    Clt,
    Cgt,
    Cle,
    Cge,
    And,
    Or,
    PtrAdd,
}

/// The operation on one variable, and None exactly where the operation is none. Takes no memory.
pub fn unary_of(op: Op) -> Option<UnaryOp>
    ensures { result ≡ unary_of op }
{
    match op {
        Op::Not => Some(UnaryOp::Not),
        Op::CharToInt => Some(UnaryOp::CharToInt),
        Op::IntToChar => Some(UnaryOp::IntToChar),
        _ => None,
    }
}

/// The operation on two variables, and None exactly where the operation is none. Takes no memory.
pub fn binary_of(op: Op) -> Option<BinaryOp>
    ensures { result ≡ binary_of op }
{
    match op {
        Op::Add => Some(BinaryOp::Add),
        Op::Sub => Some(BinaryOp::Sub),
        Op::Mul => Some(BinaryOp::Mul),
        Op::Div => Some(BinaryOp::Div),
        Op::Eq => Some(BinaryOp::Eq),
        Op::Lt => Some(BinaryOp::Lt),
        Op::Gt => Some(BinaryOp::Gt),
        Op::Le => Some(BinaryOp::Le),
        Op::Ge => Some(BinaryOp::Ge),
        Op::Ceq => Some(BinaryOp::Ceq),
        Op::Clt => Some(BinaryOp::Clt),
        Op::Cgt => Some(BinaryOp::Cgt),
        Op::Cle => Some(BinaryOp::Cle),
        Op::Cge => Some(BinaryOp::Cge),
        Op::And => Some(BinaryOp::And),
        Op::Or => Some(BinaryOp::Or),
        Op::PtrAdd => Some(BinaryOp::PtrAdd),
        _ => None,
    }
}

/// An operation on one or on two variables is found by its operation, and by no other. Does nothing when it is called.
pub fn operators_are_operations()
    ensures unary { UnaryAreOperations }
    ensures binary { BinaryAreOperations }
{}
