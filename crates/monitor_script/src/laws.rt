// Laws of scripts. Each function does nothing, and its contract is the law.

ghost use Rattle.monitor_script.specs.Laws.{FaultsAreOne, ScriptsDiffer, ScriptsHaveNoFault};

/// No two scripts have the same text.
pub fn one_script()
    ensures { ScriptsDiffer }
{}

/// No source has two first lines that break the form.
pub fn one_fault()
    ensures { FaultsAreOne }
{}

/// The text of a script has no line that breaks the form.
pub fn script_without_fault()
    ensures { ScriptsHaveNoFault }
{}
