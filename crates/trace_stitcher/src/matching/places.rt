// Functions and labels by their names.

ghost use Rattle.std.specs.Prelude.{◌<◌, ◌≤◌, ◌^◌, length};
ghost use Rattle.bril_names.specs.Numbering.{Finds};
ghost use Rattle.bril_tree.specs.Numbered.{names_of_functions};

use bril_tree::name::Name;
use bril_tree::numbered_function::Func;

// The number of the function of this name.
pub(crate) fn function_named(funcs: &[Func], name: &Name) -> Option<u32>
    requires { length funcs.now < 2 ^ 32 }
    ensures { Finds (names_of_functions funcs.now) name.now result }
{
    for (number, func) in funcs.iter().enumerate() {
        if func.name.as_bytes() == name.as_bytes() {
            return Some(number as u32);
        }
    }
    None
}

// The number of the label of this name.
pub(crate) fn label_named(labels: &[Name], name: &Name) -> Option<usize>
    ensures { Finds labels.now name.now result }
{
    for (number, label) in labels.iter().enumerate() {
        if label.as_bytes() == name.as_bytes() {
            return Some(number);
        }
    }
    None
}
