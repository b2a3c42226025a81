// The pass.

ghost use Rattle.std.specs.Prelude.{◌≤◌, IfOk, length};
ghost use Rattle.bril_profile.specs.declared.profile.Profile.{Profile};
ghost use Rattle.bril_tree.specs.Accepted.{IsAccepted};
ghost use Rattle.bril_tree.specs.Size.{IsCounted};
ghost use Rattle.trace_laws.specs.Trace.{trace_meaning};
ghost use Rattle.trace_laws.specs.lines.Traced.{IsTracedTree};

use crate::edit::traced;
use crate::matching::{added_items, fitting_entries};
use bril_checker::Checked;
use bril_profile::Profile;
use bril_tree::program::Prog;
use bril_tree::tree::Tree;
use pass_make::{Edit, Edited, Made};
use std::alloc::{AllocError, Global};

/// The pass `trace`, as clauses see it by its tally. Behind the label of each entry of the profile that fits it puts the path that the
/// entry takes from there, between a `speculate` and a `commit`: each branch as a guard, by which a failed trace goes back to the old
/// code. Its factor is 520, and its bound the number of items and, for each entry that fits, twice what it lays and five.
pub type Stitch = Edited<StitchEdit>;

/// The edit of the pass `trace`.
pub struct StitchEdit;

// The tree of the program with the traces of the entries that fit.
fn stitched(alloc: Global, prog: &Prog, profile: &Profile) -> Result<Tree, AllocError>
    requires accepted { IsAccepted prog.now }
    requires counted { IsCounted prog.now }
    ensures { IfOk result (IsTracedTree prog.now profile.now) }
{
    let fits = fitting_entries(alloc, prog, profile.entries.as_slice())?;
    let tree = traced(alloc, prog, fits.as_slice())?;
    Ok(tree)
}

impl Edit for StitchEdit {
    ghost meaning = { trace_meaning };

    fn is_named(name: &[u8]) -> bool {
        name == b"trace".as_slice()
    }

    fn bound(alloc: Global, prog: &Checked, profile: &Profile) -> Result<u64, AllocError> {
        let prog = prog.prog();
        let fits = fitting_entries(alloc, prog, profile.entries.as_slice())?;
        Ok(added_items(prog.size(), fits.as_slice()))
    }

    fn edit(alloc: Global, prog: &Checked, profile: &Profile) -> Result<Made, AllocError> {
        Ok(Made::Tree(stitched(alloc, prog.prog(), profile)?))
    }
}
