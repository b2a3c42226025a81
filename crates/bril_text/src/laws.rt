// Laws of reading. Each function states some, and does nothing when it is called.

ghost use Rattle.bril_tree.specs.SourceLaws.{SourcesSpellOneTree, SourcesHaveOneFault, SpelledHaveNoFault, EachHasTreeOrFault};
ghost use Rattle.bril_text.specs.Reading.{Spells, HasFault};

/// A source spells at most one tree: two readings of the same bytes are the same tree.
pub fn one_tree()
    ensures { SourcesSpellOneTree Spells }
{}

/// A source either spells a tree or has exactly one fault, never both.
pub fn tree_or_fault()
    ensures one { SourcesHaveOneFault HasFault }
    ensures never_both { SpelledHaveNoFault Spells HasFault }
    ensures either { EachHasTreeOrFault Spells HasFault }
{}
