// Laws alone: the plan of a pass, which points, locations and states of a program match those of what the pass made of
// it.
//
// A pass gives a relation between the points of a function before and after it, one between the locations of the two
// functions at matching points, the pairs of points at which both programs make the same step, and what it knows of
// the values of locations. `Preserves` is what it then proves, edge by edge. The definitions are in `specs/plan/Plan.antt`.
// A plan that is preserved can be widened by locations that match, or narrowed to the points that runs visit.
// What follows from a plan is in the crates above: `steps` for runs and `walks` for acceptance. The words are
// those of the CompCert compiler's proofs, where a pass has a relation that matches states.
//
// `specs/plan/Spliced.antt` is for passes that put items in: lists with other lists put in before and after their items. Some such
// items are in `specs/plan/Lines.antt`.
// `specs/plan/Marked.antt` is for passes that empty items: lists with one item in place of those that are marked.

ghost use Rattle.std.specs.Prelude.{ℕ};
ghost use Rattle.bril_tree.specs.Operand.{Location};
ghost use Rattle.bril_tree.specs.declared.program.Prog.{Prog};
ghost use Rattle.bril_tree.specs.declared.value.Value.{Value};
ghost use Rattle.pass_edit_laws.specs.plan.Plan.{Plan};
ghost use Rattle.pass_edit_laws.specs.plan.Narrowing.{NarrowingPreserves};
ghost use Rattle.pass_edit_laws.specs.plan.Spliced.{ItemsSpliced};
ghost use Rattle.pass_edit_laws.specs.plan.Widening.{WideningPreserves};

/// A pass, as the proofs see it.
pub trait Planned {
    /// How the points, locations and states of a program match those of what the pass made of it.
    ghost plan: { Prog → Prog → Plan };
}

/// Locations that match beside those of a plan.
pub trait Widened: Planned {
    /// The location of the program at the first point and that of the result at the second match.
    ghost more: { Prog → Prog → (f i j : ℕ) → Location → Location → Type 0 };
}

/// The points of a plan that runs visit, and what is known there.
pub trait Narrowed: Planned {
    /// Runs visit this point of the program's function.
    ghost visited: { Prog → Prog → (f i : ℕ) → Type 0 };
    /// This regular pair of points stays one: from it each branch leads to a point that is visited.
    ghost regular: { Prog → Prog → (f i j : ℕ) → Type 0 };
    /// The location of the program is known to hold the value at the point.
    ghost known: { Prog → Prog → (f i : ℕ) → Location → Value → Type 0 };
}

/// A plan that is preserved is still preserved with more matching locations, where these hold the same at the start of
/// a function and along each edge, by what else matches.
pub fn widening_preserves<M: Widened>()
    ensures { WideningPreserves M.plan M.more }
{}

/// A plan that is preserved is still preserved for fewer points, where each branch from a regular pair that stays leads
/// to one of them, and with more that is known there, where that holds at the start and is kept along each edge.
pub fn narrowing_preserves<M: Narrowed>()
    ensures { NarrowingPreserves M.plan M.visited M.regular M.known }
{}

/// Item `i` of a list stands in the spliced list after what was put in before it, what was put in after it comes next,
/// and each of the pieces stands there in its order.
pub fn items_are_spliced<X>()
    ensures { ItemsSpliced X }
{}
