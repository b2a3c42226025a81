// Laws alone: how the numbers of a program, in which bounds on passes and on machine words are told, change by a pass:
// its locations, its longest list of arguments, the depth of its open sites, its entries of labels, and the labels that
// are entered from one leave point.
//
// A pass shows of each function how its numbers grow (`FunctionGrows`, in `specs/numbers/`), mostly not at all (`FunctionWithin`). Then
// so do those of the program, its entries by what all functions get together. `proofs/lemmas/numbers/Items.antt` says of which old items the new
// ones come, by the names and trees of `proofs/lemmas/numbers/ItemTrees.antt`; from there `proofs/lemmas/numbers/Locations.antt` has the locations and
// `proofs/lemmas/numbers/Arguments.antt` the lists of arguments. `proofs/lemmas/numbers/Depths.antt` has the depth from walks that match, `proofs/lemmas/numbers/Edges.antt`
// and `proofs/lemmas/numbers/Entering.antt` the entries and their width from edges that match, `proofs/lemmas/numbers/InPlace.antt` from items that stay
// at their points, and `proofs/lemmas/numbers/Twins.antt` pairs the branches of two items. `proofs/lemmas/numbers/Shares.antt` adds up what belongs to functions.

ghost use Rattle.pass_edit_laws.specs.numbers.Numbers.{FunctionsBound, FunctionsGrow};

/// Where no number of a function is greater than that of the function that it was made of, no number of the program is.
/// A call does nothing.
pub fn functions_bound()
    ensures { FunctionsBound }
{}

/// The numbers of a program grow as those of its functions do, and its entries by what all its functions get. A call does
/// nothing.
pub fn functions_grow()
    ensures { FunctionsGrow }
{}
