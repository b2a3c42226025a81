// What is live in each function of a program.

ghost use Rattle.std.specs.Prelude.{◌≡◌, ◌<◌, IfOk, length};
ghost use Rattle.std.specs.List.{AllZip};
ghost use Rattle.shadow_place.specs.Placement.{TellsLiveIn};

use bril_checker::Checked;
use bril_tree::sequence::Seq;
use live_sets::Live;
use std::alloc::{AllocError, Global};

/// What is live in each function of a program, in order. Takes the time of `Live::of` for each. An error means that there is no
/// memory.
pub fn all_lives(alloc: Global, prog: &Checked) -> Result<Seq<Live>, AllocError>
    ensures { IfOk result (AllZip TellsLiveIn prog.now.prog.funcs) }
{
    let mut lives = Seq::new(alloc);
    for number in 0..prog.prog().funcs.as_slice().len() {
        lives.push(Live::of(alloc, prog, number as u32)?)?;
    }
    Ok(lives)
}
