// Laws of tokens. Each function states one, and does nothing when it is called.

ghost use Rattle.bril_lex.specs.Laws.{CutsInOneWay, CutSourcesAreUtf8, PrintedIsCutIntoItself};

/// Each source either has exactly one list of tokens or stops at exactly one byte.
pub fn cuts_in_one_way()
    ensures { CutsInOneWay }
{}

/// A source that has tokens is UTF-8, comments and blanks included.
pub fn cut_sources_are_utf8()
    ensures { CutSourcesAreUtf8 }
{}

/// Tokens that are printed, each followed by blanks or by a byte that can't continue it, are the tokens of the printed
/// text.
pub fn printed_is_cut_into_itself()
    ensures { PrintedIsCutIntoItself }
{}
