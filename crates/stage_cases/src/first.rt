// The first function of a program.

ghost use Rattle.std.specs.Prelude.{◌<◌, ◌≤◌, IfOk, length};

use bril_tree::numbered_function::Func;
use bril_tree::program::Prog;
use case_text::LineFault;

/// The first function, of at most 100,000 items and as many variables. `Form`: there is none, or it has more.
pub fn first_function(prog: &Prog) -> Result<&Func, LineFault>
    ensures some { IfOk result (λ func. 0 < length prog.now.funcs) }
    ensures few { IfOk result (λ func. (length func.now.code ≤ 100000) × (length func.now.vars ≤ 100000)) }
{
    let Some(func) = prog.funcs.as_slice().first() else {
        return Err(LineFault::Form);
    };
    if func.code.as_slice().len() > 100_000 || func.vars.as_slice().len() > 100_000 {
        return Err(LineFault::Form);
    }
    Ok(func)
}
