// Laws of linking, where the files are told. Each function states some, and does nothing when it is called.

ghost use Rattle.import_linker.specs.Laws.{LackingAreNotLinked, LackingAreNotRead, LinkedAreNotRefused, ProgramsHaveOneTree, RefusedOnce};

/// A program has one tree at most and one refusal at most, and never both: a want of memory and reads that failed apart.
pub fn linking_is_one()
    ensures tree { ProgramsHaveOneTree }
    ensures never_both { LinkedAreNotRefused }
    ensures refusal { RefusedOnce }
{}

/// A program of which a file isn't there has no tree, and is refused for a file that wasn't read: also where reads failed.
pub fn lacking_is_told()
    ensures tree { LackingAreNotLinked }
    ensures refusal { LackingAreNotRead }
{}
