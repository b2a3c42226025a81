// Laws alone: plans by names, of a pass whose result has, at regular points, the items of its program by their trees.
//
// Variables, labels and functions have numbers in a program, and the numbers change where an item is put in or dropped.
// Here a pass says its matching by names alone: which points match, which locations matter there, and that the items of
// regular points are equal as trees. `specs/names/Renaming.antt` is the same for a pass that gives variables other names, not
// necessarily one name to each. `proofs/lemmas/names/Trees.antt` goes from edited trees to programs.

ghost use Rattle.std.specs.Prelude.{ℕ, List};
ghost use Rattle.bril_tree.specs.declared.program.Prog.{Prog};
ghost use Rattle.pass_edit_laws.specs.names.NamedPlan.{NamePlan, NamesPreserve};
ghost use Rattle.pass_edit_laws.specs.names.Renaming.{RenamingPreserves};

/// A pass, as the proofs see it, that says its matching by names.
pub trait PlannedByNames {
    /// Which points match, which locations matter, and where both programs have the same item.
    ghost names: { Prog → Prog → NamePlan };
}

/// A pass that gives variables other names.
pub trait Renamed: PlannedByNames {
    /// The new name of each variable of the program's function of this number.
    ghost renamed: { Prog → Prog → ℕ → List (List ℕ) };
}

/// A pass that keeps names has a plan that is preserved.
pub fn names_preserve<M: PlannedByNames>()
    ensures { NamesPreserve M.names }
{}

/// So has a pass that gives variables other names, where no two variables of one new name matter at once.
pub fn renaming_preserves<M: Renamed>()
    ensures { RenamingPreserves M.names M.renamed }
{}
