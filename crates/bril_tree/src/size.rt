// How many items a program has.

ghost use Rattle.std.specs.Prelude.{◌≡◌, ◌^◌, ◌<◌, ◌-◌, ◌↔◌, All, IsTrue, length};
ghost use Rattle.bril_tree.specs.Size.{item_count, IsCounted};

use crate::numbered_function::Func;
use crate::program::Prog;

impl Prog {
    /// The number of items of all functions, which is below 2^64. Takes no memory.
    pub fn size(&self) -> u64
        requires { item_count self.now < 2 ^ 64 }
        ensures { result ≡ item_count self.now }
    {
        let mut items = 0;
        for func in self.funcs.as_slice() {
            items += func.code.as_slice().len() as u64;
        }
        items
    }

    /// Whether the functions, and the points of each, have numbers of 32 bits: there are fewer than 2^32 functions,
    /// and each has fewer than 2^32 - 1 items. Takes no memory.
    pub fn is_counted(&self) -> bool
        ensures { IsTrue result ↔ IsCounted self.now }
    {
        let funcs = self.funcs.as_slice();
        funcs.len() < 4294967296 && are_counted(funcs)
    }
}

// Whether the points of each function have numbers of 32 bits.
fn are_counted(funcs: &[Func]) -> bool
    ensures { IsTrue result ↔ All (λ f. length f.code < 2 ^ 32 - 1) funcs.now }
{
    for func in funcs {
        if !has_few_items(func) {
            return false;
        }
    }
    true
}

// Whether the points of the function have numbers of 32 bits.
fn has_few_items(func: &Func) -> bool
    ensures { IsTrue result ↔ (length func.now.code < 2 ^ 32 - 1) }
{
    func.code.as_slice().len() < 4294967295
}
