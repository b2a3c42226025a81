// How the numbers of a program grow by traces.

ghost use Rattle.trace_laws.specs.growth.Numbers.{TraceKeepsNumbers};

/// By k traces that lay n items together a program gets at most 3 k entries of labels and n locations more; its longest list of
/// arguments stays; of labels that are entered from one leave point it has at most the greater of what it had and 2, and of open sites
/// the lesser of one more and 8. A call does nothing.
pub fn trace_keeps_numbers()
    ensures { TraceKeepsNumbers }
{}
