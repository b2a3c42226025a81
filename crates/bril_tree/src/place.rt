// Variables and shadows as data.

/// A variable or its shadow, by the variable's number in its function.
#[derive(Clone, Copy, PartialEq, Eq, Debug, Drop)]
pub enum Place {
    Var(u32),
    Shadow(u32),
}
