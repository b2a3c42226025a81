// What follows of a tree that is laid out in SSA form, and of what the pass means.

ghost use Rattle.pass_law.specs.Meaning.{HasNumbers};
ghost use Rattle.ssa_form_laws.specs.form.Laws.{LaidTreesAreEdits, LaidTreesAreInForm, LaidTreesAreShort, SsaKeepsNumbers};
ghost use Rattle.ssa_form_laws.specs.form.Row.{LiveEntriesAreFew};
ghost use Rattle.ssa_form_laws.specs.form.Ssa.{ssa_meaning};

/// In the tree that is made of an accepted program each variable has one item that assigns it, or is an argument and has none; each
/// `get` stands behind a label and isn't trivial; and each variable whose shadow a `set` assigns has a `get`. A call does nothing.
pub fn laid_trees_are_in_form()
    ensures { LaidTreesAreInForm }
{}

/// The tree has the heads and labels of the program, and names only functions and labels that are there. A call does nothing.
pub fn laid_trees_are_edits()
    ensures { LaidTreesAreEdits }
{}

/// The tree has at most two items more than the program for each live entry. A call does nothing.
pub fn laid_trees_are_short()
    ensures { LaidTreesAreShort }
{}

/// A program has one factor and one bound of the pass at most, and an accepted program has both. A call does nothing.
pub fn ssa_has_numbers()
    ensures { HasNumbers ssa_meaning }
{}

/// An accepted program has at most as many live entries as entries, times the most locations of a function. A call does nothing.
pub fn live_entries_are_few()
    ensures { LiveEntriesAreFew }
{}

/// What the pass makes has no greater number of entries of labels, of labels that are entered from one leave point, of open sites and of
/// arguments, and at most twice as many locations as the program has locations and the bound items. It is a part of `IsSsa` itself. A
/// call does nothing.
pub fn ssa_keeps_numbers()
    ensures { SsaKeepsNumbers }
{}
