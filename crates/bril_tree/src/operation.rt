// The operations other than `const`.

ghost use Rattle.std.specs.Prelude.{◌≡◌, bytes_eq};
ghost use Rattle.std.specs.List.{list_any};
ghost use Rattle.bril_tree.specs.Spelling.{operation_text, operation_of, operation_among, float_operations};

/// An operation of Bril's core language or of its memory, character, SSA and speculation extensions.
#[derive(Clone, Copy, PartialEq, Eq, Debug, Drop)]
pub enum Op {
    Add,
    Sub,
    Mul,
    Div,
    Eq,
    Lt,
    Gt,
    Le,
    Ge,
    Ceq,
    Clt,
    Cgt,
    Cle,
    Cge,
    Not,
    And,
    Or,
    Id,
    Nop,
    Jmp,
    Br,
    Call,
    Ret,
    Print,
    Alloc,
    Free,
    Store,
    Load,
    PtrAdd,
    CharToInt,
    IntToChar,
    Get,
    Set,
    Undef,
    Speculate,
    Commit,
    Guard,
}

// All operations.
const OPERATIONS: [Op; 37] = [
    Op::Add,
    Op::Sub,
    Op::Mul,
    Op::Div,
    Op::Eq,
    Op::Lt,
    Op::Gt,
    Op::Le,
    Op::Ge,
    Op::Ceq,
    Op::Clt,
    Op::Cgt,
    Op::Cle,
    Op::Cge,
    Op::Not,
    Op::And,
    Op::Or,
    Op::Id,
    Op::Nop,
    Op::Jmp,
    Op::Br,
    Op::Call,
    Op::Ret,
    Op::Print,
    Op::Alloc,
    Op::Free,
    Op::Store,
    Op::Load,
    Op::PtrAdd,
    Op::CharToInt,
    Op::IntToChar,
    Op::Get,
    Op::Set,
    Op::Undef,
    Op::Speculate,
    Op::Commit,
    Op::Guard,
];

impl Op {
    /// How the operation is spelled, in the words of the Bril documentation. Takes no memory.
    pub fn name(self) -> &'static str
        ensures { result.now ≡ operation_text self }
    {
        match self {
            Op::Add => "add",
            Op::Sub => "sub",
            Op::Mul => "mul",
            Op::Div => "div",
            Op::Eq => "eq",
            Op::Lt => "lt",
            Op::Gt => "gt",
            Op::Le => "le",
            Op::Ge => "ge",
            Op::Ceq => "ceq",
            Op::Clt => "clt",
            Op::Cgt => "cgt",
            Op::Cle => "cle",
            Op::Cge => "cge",
            Op::Not => "not",
            Op::And => "and",
            Op::Or => "or",
            Op::Id => "id",
            Op::Nop => "nop",
            Op::Jmp => "jmp",
            Op::Br => "br",
            Op::Call => "call",
            Op::Ret => "ret",
            Op::Print => "print",
            Op::Alloc => "alloc",
            Op::Free => "free",
            Op::Store => "store",
            Op::Load => "load",
            Op::PtrAdd => "ptradd",
            Op::CharToInt => "char2int",
            Op::IntToChar => "int2char",
            Op::Get => "get",
            Op::Set => "set",
            Op::Undef => "undef",
            Op::Speculate => "speculate",
            Op::Commit => "commit",
            Op::Guard => "guard",
        }
    }

    /// The operation that is spelled so, and None exactly where there is none. Takes no memory.
    pub fn named(name: &str) -> Option<Op>
        ensures { result ≡ operation_of name.now }
    {
        Op::spelled(name.as_bytes())
    }

    /// The operation that these bytes spell, and None exactly where there is none. Takes no memory.
    pub fn spelled(name: &[u8]) -> Option<Op>
        ensures { result ≡ operation_of name.now }
    {
        first_named(&OPERATIONS, name)
    }
}

// The first of the operations with this name.
fn first_named(operations: &[Op], name: &[u8]) -> Option<Op>
    ensures { result ≡ operation_among operations.now name.now }
{
    'operations: for op in operations {
        if name == op.name().as_bytes() {
            return Some(*op);
        }
    }
    None
}

/// Whether the bytes spell one of the nine operations of Bril's floating point extension, which are not supported.
/// Takes no memory.
pub fn is_float_operation(name: &[u8]) -> bool
    ensures { result ≡ list_any (bytes_eq name.now) float_operations }
{
    matches!(
        name,
        b"fadd" | b"fsub" | b"fmul" | b"fdiv" | b"feq" | b"flt" | b"fgt" | b"fle" | b"fge"
    )
}
