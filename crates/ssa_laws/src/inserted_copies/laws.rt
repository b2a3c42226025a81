// What follows of a program with copies put in.

ghost use Rattle.std.specs.Prelude.{ℕ};
ghost use Rattle.bril_tree.specs.Operand.{Location};
ghost use Rattle.bril_tree.specs.declared.program.Prog.{Prog};
ghost use Rattle.ssa_laws.specs.inserted_copies.Inserted.{CopiesRefine};

/// Where copies are put in, as the proofs see it.
pub trait Copied {
    /// The point of the result's function at which the program's item stands.
    ghost home: { Prog → Prog → (f i : ℕ) → ℕ };
    /// Just before the program's item at this point the location of the result holds what that of the program does.
    ghost base: { Prog → Prog → (f i : ℕ) → Location → Location → Type 0 };
}

/// With copies put in, an accepted program does what it did. Where at most `c` copies stand before an item, one step of the
/// program is `c + 1` of the result at most. A call does nothing.
pub fn copies_refine<M: Copied>()
    ensures { CopiesRefine M.home M.base }
{}
