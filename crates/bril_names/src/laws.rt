// Laws of numbering. Each function states some, and does nothing when it is called.

ghost use Rattle.bril_names.specs.Laws.{TreesHaveOneProgram, ProgramsHaveOneTree, TreesHaveOneFault, NumberedHaveNoFault, EachHasProgramOrFault, SoundEditsHaveNoFault};

/// A tree has one numbered program at most, and a program is the numbering of one tree at most.
pub fn numbering_is_one_to_one()
    ensures program { TreesHaveOneProgram }
    ensures tree { ProgramsHaveOneTree }
{}

/// A tree without imports has a numbered program or exactly one fault, and never both.
pub fn program_or_fault()
    ensures one { TreesHaveOneFault }
    ensures never_both { NumberedHaveNoFault }
    ensures either { EachHasProgramOrFault }
{}

/// A tree whose functions are those of a program, each with its head, with labels that differ and with no name that
/// nothing has, has no fault.
pub fn sound_edits_have_no_fault()
    ensures { SoundEditsHaveNoFault }
{}
