// The shipped passes, lent to a job.

ghost use Rattle.std.specs.Prelude.{IfOk};
ghost use Rattle.shipped_passes.specs.Shipped.{AreShipped};

use braun_ssa::Ssa;
use coalesce::Merge;
use constant_pass::Const;
use dead_code::Dead;
use pass_law::Pass;
use side_traces::Side;
use ssa_exit::Unssa;
use std::alloc::{AllocError, Global};
use tidy_code::Tidy;
use trace_stitcher::Stitch;
use variable_coloring::Color;

/// What is done with the shipped passes.
pub trait Job: Drop {
    type Answer;

    /// What the job is known to have done, by its answer.
    ghost done: { Self → Self.Answer → Type 0 } = { λ _ _. Unit {0} };

    /// Does it.
    fn work(self, passes: &mut [Box<dyn Pass>]) -> Self::Answer
        requires { AreShipped (λ p. meaning p) passes.old }
        ensures { done self result };
}

/// Makes the shipped passes and lends them to the job, whose answer is handed on. The only error is out of memory, where the
/// job isn't begun.
pub fn with_shipped_passes<J: Job>(alloc: Global, job: J) -> Result<J::Answer, AllocError>
    ensures { IfOk result (J.done job) }
{
    let trace = Box::new(alloc, Stitch::new())?;
    let ssa = Box::new(alloc, Ssa::new())?;
    let constant = Box::new(alloc, Const::new())?;
    let dead = Box::new(alloc, Dead::new())?;
    let unssa = Box::new(alloc, Unssa::new())?;
    let merge = Box::new(alloc, Merge::new())?;
    let tidy = Box::new(alloc, Tidy::new())?;
    let side = Box::new(alloc, Side::new())?;
    let color = Box::new(alloc, Color::new())?;
    let trace: Box<dyn Pass> = trace;
    let ssa: Box<dyn Pass> = ssa;
    let constant: Box<dyn Pass> = constant;
    let dead: Box<dyn Pass> = dead;
    let unssa: Box<dyn Pass> = unssa;
    let merge: Box<dyn Pass> = merge;
    let tidy: Box<dyn Pass> = tidy;
    let side: Box<dyn Pass> = side;
    let color: Box<dyn Pass> = color;
    let mut passes = [trace, ssa, constant, dead, unssa, merge, tidy, side, color];
    Ok(job.work(passes.as_mut_slice()))
}
