// What follows of a tree that is laid out in SSA form.

ghost use Rattle.ssa_form_laws.specs.numbers.Laws.{LaidTreesAreSsa};

/// The program of a tree that is laid out in SSA form is in this form, with the heads and labels of the program that it was made of.
/// Beside `get`s and `set`s it has as many items as that has in all; what no walk reaches is a label or a `nop`; and its numbers grow
/// by no more than the bound allows. A call does nothing.
pub fn laid_trees_are_ssa()
    ensures { LaidTreesAreSsa }
{}
