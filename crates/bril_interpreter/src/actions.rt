// What instructions do to the newest frame alone.

ghost use Rattle.std.specs.Prelude.{[], slice_index, if◌then◌else◌};

use crate::interp::Interp;
use crate::operand::number_at;
use bril_tree::operation::Op;
use bril_tree::sequence::Seq;
use bril_tree::types::Ty;
use bril_values::{Outcome, bool_of, compute};

impl<'a> Interp<'a> {
    ghost use Rattle.bril_tree.specs.Outcome as meaning;
    ghost use Rattle.bril_tree.specs.Step.{by_outcome, jumps};
    ghost use Rattle.bril_tree.specs.declared.numbered.Instr.TheVariants.{Act};
    ghost use Rattle.bril_tree.specs.declared.operation.Op.TheVariants.{Get, Nop};
    ghost use Rattle.bril_interpreter.specs.Interpreter.{under};
    ghost use Rattle.bril_interpreter.specs.Steps.{newest_of, IsAtItem, HasDest, Makes};

    // The point of the first label where the condition holds, else that of the second.
    pub(crate) fn branch(&mut self, args: &Seq<u32>, labels: &Seq<u32>)
        ensures { Makes self.old (under self.old jumps (slice_index labels.now (if meaning.bool_of (meaning.argument (newest_of self.old).locations args.now 0) then 0 else 1))) self.new }
    {
        let taken = if bool_of(self.argument(args, 0)) {
            0
        } else {
            1
        };
        self.jump(number_at(labels, taken));
    }

    // The destination gets what its shadow holds.
    pub(crate) fn get(&mut self, dest: Option<u32>)
        requires item { IsAtItem self.old }
        requires dest { HasDest self.old dest }
        ensures { Makes self.old (under self.old by_outcome (meaning.shadow_given (newest_of self.old).locations dest) (Act dest None Get [] [] [])) self.new }
    {
        match dest {
            None => self.advance(),
            Some(x) => {
                let value = self.newest.locations().shadow(x);
                self.give(dest, value);
            }
        }
    }

    // The destination gets what an operation computes, or the run ends by a fault; any other operation does nothing.
    pub(crate) fn calculate(&mut self, op: Op, dest: Option<u32>, ty: Option<Ty>, args: &Seq<u32>)
        requires item { IsAtItem self.old }
        requires dest { HasDest self.old dest }
        ensures { Makes self.old (under self.old by_outcome (meaning.computed op ty (meaning.argument (newest_of self.old).locations args.now 0) (meaning.argument (newest_of self.old).locations args.now 1)) (Act dest None Nop [] [] [])) self.new }
    {
        match compute(op, ty, self.argument(args, 0), self.argument(args, 1)) {
            Outcome::Yields(value) => self.give(dest, value),
            Outcome::FaultsWith(kind) => self.fault(kind),
            Outcome::HasEffect => self.advance(),
        }
    }
}
