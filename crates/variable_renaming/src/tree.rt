// From the classes of each function to the tree of a program.

ghost use Rattle.std.specs.Prelude.{◌≡◌, ◌<◌, ◌^◌, ◌-◌, ℕ, List, IfOk, None, is_some, length};
ghost use Rattle.bril_tree.specs.Accepted.{IsAccepted};
ghost use Rattle.bril_tree.specs.Live.{IsLive};
ghost use Rattle.bril_tree.specs.Numbered.{names_of_functions};
ghost use Rattle.bril_tree.specs.Operand.{Variable};
ghost use Rattle.bril_tree.specs.Shape.{shape_fault_of};
ghost use Rattle.bril_tree.specs.Sites.{AreSitesSound};
ghost use Rattle.bril_tree.specs.Size.{IsCounted};
ghost use Rattle.bril_tree.specs.declared.numbered_function.Func.{Func};
ghost use Rattle.flow_graph.specs.Graph.{IsGraphOf};
ghost use Rattle.pass_make.specs.Each.{IsFunctionOf};
ghost use Rattle.variable_renaming.specs.Classes.{AreSoundClasses};
ghost use Rattle.variable_renaming.specs.Made.{IsRenamedByClasses, IsRenamedFunction, IsRenamedTree};

use crate::edit::{made_items, new_names, self_copies};
use bril_tree::function_tree::FuncTree;
use bril_tree::name::Name;
use bril_tree::numbered_function::Func;
use bril_tree::program::Prog;
use bril_tree::sequence::Seq;
use bril_tree::tree::Tree;
use flow_graph::Graph;
use pass_make::each_function;
use std::alloc::{AllocError, Global};

/// What is a renaming pass's own: which variables of a function get one name.
pub trait Renaming {
    /// What is known of the classes of a function, beside that they are sound.
    ghost knows: { Func → List ℕ → Type 0 };

    /// The class of each variable of a function, by the variable that names it. Items of the function have the shapes of their
    /// operations, its open sites are sound, and its arguments alone are live where it begins. The only error is out of memory.
    fn classes(alloc: Global, func: &Func, graph: &Graph) -> Result<Vec<u32>, AllocError>
        requires shaped { shape_fault_of (is_some func.now.ret) func.now.code ≡ None }
        requires few { length func.now.code < 2 ^ 32 - 1 }
        requires graph { IsGraphOf func.now.code graph.now }
        requires sound { AreSitesSound func.now.code }
        requires started { (x : ℕ) → IsLive func.now.code (Variable x) 0 → x < func.now.args }
        ensures are { IfOk result (λ class. AreSoundClasses func.now class.items) }
        ensures known { IfOk result (λ class. knows func.now class.items) };
}

// The names of the program's functions.
fn function_names(alloc: Global, prog: &Prog) -> Result<Seq<Name>, AllocError>
    ensures { IfOk result (λ names. names ≡ names_of_functions prog.now.funcs) }
{
    let mut names = Seq::new(alloc);
    for func in prog.funcs.as_slice() {
        names.push(func.name.copied(alloc)?)?;
    }
    Ok(names)
}

// What these classes make of a function, whose tree this is.
fn function_by_classes(
    alloc: Global,
    _prog: &Prog,
    _number: u32,
    names: &[Name],
    func: &Func,
    function: FuncTree,
    graph: &Graph,
    class: &[u32],
) -> Result<FuncTree, AllocError>
    requires of { IsFunctionOf _prog.now _number func.now function }
    requires names { names.now ≡ names_of_functions _prog.now.funcs }
    requires graph { IsGraphOf func.now.code graph.now }
    requires classes { AreSoundClasses func.now class.now }
    ensures { IfOk result (IsRenamedFunction _prog.now func.now class.now) }
{
    let marks = self_copies(alloc, func, graph, class)?;
    let news = new_names(alloc, func, class)?;
    let code = made_items(alloc, names, news.as_slice(), func, marks.as_slice())?;
    Ok(FuncTree { code, ..function })
}

// What the pass's classes make of a function, whose tree this is.
fn renamed_function<R: Renaming>(
    alloc: Global,
    prog: &Prog,
    number: u32,
    names: &[Name],
    func: &Func,
    function: FuncTree,
) -> Result<FuncTree, AllocError>
    requires accepted { IsAccepted prog.now }
    requires of { IsFunctionOf prog.now number func.now function }
    requires names { names.now ≡ names_of_functions prog.now.funcs }
    ensures { IfOk result (IsRenamedByClasses R.knows prog.now func.now) }
{
    let graph = Graph::of_sound(alloc, func)?;
    let class = R::classes(alloc, func, &graph)?;
    function_by_classes(
        alloc,
        prog,
        number,
        names,
        func,
        function,
        &graph,
        class.as_slice(),
    )
}

/// The tree of an accepted program where all variables of a class have the name of the variable that names the class, and each
/// reached copy of a variable to one of its class is `nop`. The only error is out of memory.
pub fn renamed_tree<R: Renaming>(alloc: Global, prog: &Prog) -> Result<Tree, AllocError>
    requires accepted { IsAccepted prog.now }
    requires counted { IsCounted prog.now }
    ensures { IfOk result (IsRenamedTree R.knows prog.now) }
{
    let owned = function_names(alloc, prog)?;
    let names = owned.as_slice();
    each_function(alloc, prog, |number, func, function| {
        renamed_function::<R>(alloc, prog, number, names, func, function)
    })
}
