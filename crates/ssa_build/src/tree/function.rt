// The tree of a function in SSA form.

ghost use Rattle.std.specs.Prelude.{◌≡◌, ◌<◌, ◌^◌, ◌-◌, IfOk, None, is_some, length};
ghost use Rattle.bril_tree.specs.Shape.{shape_fault_of};
ghost use Rattle.bril_tree.specs.Sites.{AreSitesSound};
ghost use Rattle.ssa_search.specs.gets.Wants.{AreWantsOf, WantsView, gets_of};
ghost use Rattle.ssa_laws.specs.reaching_definitions.Laws.{IsTabled};
ghost use Rattle.ssa_build.specs.tree.Made.{IsLaidFunction};

use crate::code::{Layout, all_names, laid_code, leaving_rows, variables_written};
use crate::sources::solved_gets;
use bril_tree::function_tree::FuncTree;
use bril_tree::numbered_function::Func;
use flow_graph::Graph;
use ssa_search::gets::wanted_gets;
use std::alloc::{AllocError, Global};

/// What is made of a function, which has this tree: its code in SSA form. Takes time and memory in proportion to the items, the
/// wanted `get`s and what they are set from. The only error is out of memory.
pub(crate) fn laid_function(
    alloc: Global,
    func: &Func,
    function: FuncTree,
) -> Result<FuncTree, AllocError>
    requires shaped { shape_fault_of (is_some func.now.ret) func.now.code ≡ None }
    requires few { length func.now.code < 2 ^ 32 - 1 }
    requires sound { AreSitesSound func.now.code }
    requires tabled { (v : WantsView) → AreWantsOf func.now v → IsTabled func.now.code func.now.args (gets_of v) }
    requires long { length function.code ≡ length func.now.code }
    ensures { IfOk result (IsLaidFunction func.now function) }
{
    let vars = func.vars.as_slice();
    let code = func.code.as_slice();
    let graph = Graph::of_sound(alloc, func)?;
    let wants = wanted_gets(alloc, func, &graph)?;
    let found = solved_gets(alloc, func, &graph, &wants)?;
    let find = found.as_slice();
    let starts = wants.starts();
    let list = wants.list();
    let written = variables_written(alloc, code, list)?;
    let variables = written.as_slice();
    let named = all_names(alloc, vars, func.args, variables)?;
    let names = named.as_slice();
    let left = leaving_rows(alloc, code, &graph)?;
    let rows = left.as_slice();
    let layout = Layout {
        func,
        graph: &graph,
        names,
        find,
        starts,
        list,
        rows,
    };
    let made = laid_code(alloc, &layout, function.code)?;
    Ok(FuncTree {
        name: function.name,
        args: function.args,
        ret: function.ret,
        code: made,
    })
}
