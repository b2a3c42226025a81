// Laws alone: what linking leaves for the names of a program to go wrong.

ghost use Rattle.import_linker.specs.linked_names.Laws.{LinkedFunctionsDiffer, LinkedFunctionsAreThere};

/// No two functions of a linked tree have one name, and each function that an item of it names is there. So numbering its names never
/// fails for a function that stands twice, nor for one that isn't there.
///
/// The function does nothing when it is called.
pub fn linked_functions_stand()
    ensures differ { LinkedFunctionsDiffer }
    ensures there { LinkedFunctionsAreThere }
{}
