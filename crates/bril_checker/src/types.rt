// Tests on types, and on operands that have a type or none.

ghost use Rattle.std.specs.Prelude.{◌≡◌};
ghost use Rattle.bril_tree.specs.Typing.{same_type, is_plain, is_pointer, points_to, if_typed, both_typed, is_set_typed};

use bril_tree::types::{Base, Ty};
use bril_tree::typing::{same_base, same_type};

// Whether a type is the base, not behind a pointer.
fn is_plain(base: Base, ty: Ty) -> bool
    ensures { result ≡ is_plain base ty }
{
    ty.depth == 0 && same_base(base, ty.base)
}

// Whether a type is a pointer's.
pub fn is_pointer(ty: Ty) -> bool
    ensures { result ≡ is_pointer ty }
{
    ty.depth > 0
}

// Whether there is a type that is the base.
pub fn has_base(base: Base, ty: Option<Ty>) -> bool
    ensures { result ≡ if_typed (is_plain base) ty }
{
    match ty {
        None => false,
        Some(ty) => is_plain(base, ty),
    }
}

// Whether there is a type that is a pointer's.
pub fn has_pointer(ty: Option<Ty>) -> bool
    ensures { result ≡ if_typed is_pointer ty }
{
    match ty {
        None => false,
        Some(ty) => is_pointer(ty),
    }
}

// Whether there are two types, which are one.
pub fn have_same(s: Option<Ty>, t: Option<Ty>) -> bool
    ensures { result ≡ both_typed same_type s t }
{
    match (s, t) {
        (Some(s), Some(t)) => same_type(s, t),
        _ => false,
    }
}

// Whether there are two types, of which the first points to values of the second.
pub fn have_target(pointer: Option<Ty>, t: Option<Ty>) -> bool
    ensures { result ≡ both_typed points_to pointer t }
{
    match (pointer, t) {
        (Some(p), Some(t)) => p.depth == t.depth + 1 && same_base(p.base, t.base),
        _ => false,
    }
}

// Whether the value of a `set` has a type, which is that of its shadowed variable where this has one.
pub fn fits_shadow(shadowed: Option<Ty>, value: Option<Ty>) -> bool
    ensures { result ≡ is_set_typed shadowed value }
{
    match shadowed {
        None => value.is_some(),
        Some(_) => have_same(shadowed, value),
    }
}
