// The pass, in rounds until one changes nothing.

ghost use Rattle.std.specs.Prelude.{◌<◌, IfOk, IfSome, IfNone};
ghost use Rattle.bril_tree.specs.Accepted.{IsAccepted};
ghost use Rattle.bril_tree.specs.Numbered.{tree_of};
ghost use Rattle.bril_tree.specs.Size.{IsCounted};
ghost use Rattle.coalesce.specs.Copies.{copies_of_tree};
ghost use Rattle.coalesce.specs.Merge.{IsMadeBy, IsNextRound, merge_meaning};
ghost use Rattle.coalesce.specs.Rounds.{HasNoneApart};

use crate::round::round_of;
use bril_checker::Checked;
use bril_profile::Profile;
use bril_tree::program::Prog;
use pass_make::{Edit, Edited, Made, finish};
use std::alloc::{AllocError, Global};

/// The pass `merge`, as clauses see it by its tally. It gives variables of one type that reachable copies link the name of
/// one of them, where none is assigned while another is live, and puts `nop` for each reachable copy of a variable onto
/// itself; it goes in rounds until no reachable `id` has two different variables that are apart. No number of the program
/// grows. Its factor is 1, and its bound the number of items.
pub type Merge = Edited<MergeEdit>;

/// The edit of the pass `merge`.
pub struct MergeEdit;

impl Edit for MergeEdit {
    ghost meaning = { merge_meaning };

    fn is_named(name: &[u8]) -> bool {
        name == b"merge".as_slice()
    }

    fn bound(_alloc: Global, prog: &Checked, _profile: &Profile) -> Result<u64, AllocError> {
        Ok(prog.prog().size())
    }

    fn edit(alloc: Global, prog: &Checked, _profile: &Profile) -> Result<Made, AllocError> {
        Ok(Made::Program(merged(alloc, prog.prog())?))
    }
}

// What the first round makes of a program.
fn first_round(alloc: Global, prog: &Prog) -> Result<Checked, AllocError>
    requires accepted { IsAccepted prog.now }
    requires counted { IsCounted prog.now }
    ensures { IfOk result (λ made. IsNextRound prog.now made.prog) }
{
    let round = round_of(alloc, prog)?;
    let made = finish(alloc, prog, &round.tree)?;
    Ok(made)
}

// What one more round makes of a program, which then has fewer copies; none where no copy is apart any more.
fn next_round(alloc: Global, prog: &Prog) -> Result<Option<Checked>, AllocError>
    requires accepted { IsAccepted prog.now }
    requires counted { IsCounted prog.now }
    ensures next { IfOk result (λ next. IfSome next (λ made. IsNextRound prog.now made.prog)) }
    ensures fewer { IfOk result (λ next. IfSome next (λ made. copies_of_tree (tree_of made.prog) < copies_of_tree (tree_of prog.now))) }
    ensures none { IfOk result (λ next. IfNone next (HasNoneApart prog.now)) }
{
    let round = round_of(alloc, prog)?;
    if !round.changed {
        return Ok(None);
    }
    let made = finish(alloc, prog, &round.tree)?;
    Ok(Some(made))
}

// What all rounds make of a program.
fn merged(alloc: Global, prog: &Prog) -> Result<Checked, AllocError>
    requires accepted { IsAccepted prog.now }
    requires counted { IsCounted prog.now }
    ensures { IfOk result (λ made. IsMadeBy prog.now made.prog) }
{
    let mut last = first_round(alloc, prog)?;
    while let Some(made) = next_round(alloc, last.prog())? {
        last = made;
    }
    Ok(last)
}
