// What a program with traces does.

ghost use Rattle.trace_laws.specs.refinement.Laws.{TracesAreQuiet, TracesGiveBack, TracesRefine, TracesStartAlike};

/// A program with the traces of a profile's entries refines the program, with the factor 520. A call does nothing.
pub fn traces_refine()
    ensures { TracesRefine }
{}

/// No `print`, `store`, `alloc`, `free` or `call` stands between the `speculate` of a trace and its `commit`, and each of its guards goes
/// to the label behind it, with the old code. A call does nothing.
pub fn traces_are_quiet()
    ensures { TracesAreQuiet }
{}

/// Where a program with traces stands at the `speculate` of a trace, in a run with fitting arguments, the program comes to stand just
/// behind the entry's label, and both hold the same. A call does nothing.
pub fn traces_start_alike()
    ensures { TracesStartAlike }
{}

/// An attempt of such a trace changes no block, no caller and no output until its `commit`, and a guard that fails gives back the
/// variables, shadows and saves that were there at the `speculate`. A call does nothing.
pub fn traces_give_back()
    ensures { TracesGiveBack }
{}
