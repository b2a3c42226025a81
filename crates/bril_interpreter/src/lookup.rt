// What a program has under a number.

ghost use Rattle.std.specs.Prelude.{◌≡◌};
ghost use Rattle.bril_tree.specs.Step.{code_of};
ghost use Rattle.bril_interpreter.specs.Frames.{variable_count};

use bril_tree::numbered::Instr;
use bril_tree::program::Prog;

// The items of a function; none where the program lacks it.
pub fn items_of(prog: &Prog, function: u32) -> &[Instr]
    ensures { result.now ≡ code_of prog.now function }
{
    match prog.funcs.as_slice().get(function as usize) {
        Some(func) => func.code.as_slice(),
        None => &[],
    }
}

// The number of a function's variables; 0 where the program lacks it.
pub fn variables_of(prog: &Prog, function: u32) -> usize
    ensures { result ≡ variable_count prog.now function }
{
    match prog.funcs.as_slice().get(function as usize) {
        Some(func) => func.vars.as_slice().len(),
        None => 0,
    }
}
