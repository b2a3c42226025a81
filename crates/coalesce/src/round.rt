// A round over the functions of a program.

ghost use Rattle.std.specs.Prelude.{◌≡◌, ◌<◌, ◌≤◌, false, true, IfOk};
ghost use Rattle.bril_tree.specs.Accepted.{IsAccepted};
ghost use Rattle.bril_tree.specs.Numbered.{tree_of};
ghost use Rattle.bril_tree.specs.Size.{IsCounted};
ghost use Rattle.coalesce.specs.Copies.{copies_in, copies_of_code, copies_of_tree};
ghost use Rattle.coalesce.specs.Rounds.{AreRoundClasses, HasNoneApart, IsRoundTree};

use crate::classes::classes_in;
use crate::copies::{copies_in, copies_of_code};
use bril_tree::function_tree::FuncTree;
use bril_tree::numbered_function::Func;
use bril_tree::program::Prog;
use bril_tree::tree::Tree;
use flow_graph::Graph;
use std::alloc::{AllocError, Global};
use variable_renaming::{Renaming, renamed_tree};

// What a round makes of a program, and whether a copy became `nop`.
#[derive(Drop)]
pub(crate) struct Round {
    pub tree: Tree,
    pub changed: bool,
}

// The classes that a round finds.
struct RoundClasses;

impl Renaming for RoundClasses {
    ghost knows = { AreRoundClasses };

    fn classes(alloc: Global, func: &Func, graph: &Graph) -> Result<Vec<u32>, AllocError> {
        let classes = classes_in(alloc, func, graph)?;
        Ok(classes.class)
    }
}

// Whether a round left fewer copies in the function, of which it made this tree.
fn has_fewer(func: &Func, made: &FuncTree) -> bool
    ensures fewer { result ≡ true → copies_in made.now.code < copies_of_code func.now.code }
    ensures as_many { result ≡ false → copies_of_code func.now.code ≤ copies_in made.now.code }
{
    copies_in(made.code.as_slice()) < copies_of_code(func.code.as_slice())
}

// Whether a round left fewer copies in any function of the program, of which it made this tree.
fn is_changed(prog: &Prog, tree: &Tree) -> bool
    requires { IsRoundTree prog.now tree.now }
    ensures fewer { result ≡ true → copies_of_tree tree.now < copies_of_tree (tree_of prog.now) }
    ensures none { result ≡ false → HasNoneApart prog.now }
{
    let made = tree.funcs.as_slice();
    for (number, func) in prog.funcs.as_slice().iter().enumerate() {
        if has_fewer(func, &made[number]) {
            return true;
        }
    }
    false
}

// What a round makes of a program. A round that changes it leaves fewer copies; after one that doesn't no copy is apart.
pub(crate) fn round_of(alloc: Global, prog: &Prog) -> Result<Round, AllocError>
    requires accepted { IsAccepted prog.now }
    requires counted { IsCounted prog.now }
    ensures tree { IfOk result (λ round. IsRoundTree prog.now round.tree) }
    ensures fewer { IfOk result (λ round. round.changed ≡ true → copies_of_tree round.tree < copies_of_tree (tree_of prog.now)) }
    ensures none { IfOk result (λ round. round.changed ≡ false → HasNoneApart prog.now) }
{
    let tree = renamed_tree::<RoundClasses>(alloc, prog)?;
    let changed = is_changed(prog, &tree);
    Ok(Round { tree, changed })
}
