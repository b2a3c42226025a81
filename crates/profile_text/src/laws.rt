// Laws of the text form. Each function does nothing, and its contract is the law.

ghost use Rattle.profile_text.specs.Laws.{TextsDiffer, FaultsAreOne, TextsHaveNoFault};

/// No two profiles have the same text.
pub fn one_profile()
    ensures { TextsDiffer }
{}

/// No source has two first lines that break the form.
pub fn one_fault()
    ensures { FaultsAreOne }
{}

/// The text of a profile has no line that breaks the form.
pub fn text_without_fault()
    ensures { TextsHaveNoFault }
{}
