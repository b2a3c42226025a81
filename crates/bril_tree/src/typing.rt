// Whether types are one.

ghost use Rattle.std.specs.Prelude.{◌≡◌};
ghost use Rattle.bril_tree.specs.Typing.{same_base, same_type, same_result};

use crate::types::{Base, Ty};

/// Whether two bases are one. Takes no memory.
pub fn same_base(a: Base, b: Base) -> bool
    ensures { result ≡ same_base a b }
{
    match a {
        Base::Int => matches!(b, Base::Int),
        Base::Bool => matches!(b, Base::Bool),
        Base::Char => matches!(b, Base::Char),
    }
}

/// Whether two types are one. Takes no memory.
pub fn same_type(s: Ty, t: Ty) -> bool
    ensures { result ≡ same_type s t }
{
    s.depth == t.depth && same_base(s.base, t.base)
}

/// Whether both are a type, which is one, or neither is: results of functions, or types of variables. Takes no memory.
pub fn same_result(s: Option<Ty>, t: Option<Ty>) -> bool
    ensures { result ≡ same_result s t }
{
    match (s, t) {
        (None, None) => true,
        (Some(s), Some(t)) => same_type(s, t),
        _ => false,
    }
}
