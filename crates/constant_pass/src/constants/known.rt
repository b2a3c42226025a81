// What is known of a location.

ghost use Rattle.std.specs.Prelude.{◌≡◌};
ghost use Rattle.constant_pass.specs.constants.Known.{IsBelow, is_many, is_nothing};
ghost use Rattle.constant_pass.specs.constants.Work.{height};
ghost use Rattle.constant_pass.specs.declared.constants.known.Known.{Known};

use bril_tree::value::Value;

/// What is known of the values that a location holds.
#[derive(Clone, Copy, PartialEq, Eq, Debug, Drop)]
pub enum Known {
    /// It holds none, as far as is known.
    Nothing,
    /// It holds this one alone.
    One(Value),
    /// It may hold many.
    Many,
}

impl Known {
    // The least that is at or above both.
    pub(crate) fn joined(self, other: Known) -> Known
        ensures left { IsBelow self result }
        ensures right { IsBelow other result }
        ensures least { (bound : Known) → IsBelow self bound → IsBelow other bound → IsBelow result bound }
    {
        match (self, other) {
            (Known::Nothing, _) => other,
            (_, Known::Nothing) => self,
            (Known::One(v), Known::One(w)) => joined_values(v, w),
            _ => Known::Many,
        }
    }

    // How often it can still rise.
    pub(crate) fn height(self) -> u8
        ensures { result ≡ height self }
    {
        match self {
            Known::Nothing => 2,
            Known::One(_) => 1,
            Known::Many => 0,
        }
    }

    // Whether it is nothing.
    pub(crate) fn is_nothing(self) -> bool
        ensures { result ≡ is_nothing self }
    {
        match self {
            Known::Nothing => true,
            _ => false,
        }
    }

    // Whether it is many.
    pub(crate) fn is_many(self) -> bool
        ensures { result ≡ is_many self }
    {
        match self {
            Known::Many => true,
            _ => false,
        }
    }
}

// The least that is at or above two values.
fn joined_values(v: Value, w: Value) -> Known
    ensures left { IsBelow (Known.One v) result }
    ensures right { IsBelow (Known.One w) result }
    ensures least { (bound : Known) → IsBelow (Known.One v) bound → IsBelow (Known.One w) bound → IsBelow result bound }
{
    if v == w { Known::One(v) } else { Known::Many }
}
