// Shadows, and speculation.

ghost use Rattle.std.specs.Prelude.{◌≡◌, OnOk, OnErr};

use crate::interp::Interp;
use bril_tree::value::Value;
use std::alloc::AllocError;

impl<'a> Interp<'a> {
    ghost use Rattle.bril_tree.specs.Step.{advances, with_locations, shadowed, speculates, commits, guards, with_failure};
    ghost use Rattle.bril_interpreter.specs.Interpreter.{state_of, under};
    ghost use Rattle.bril_interpreter.specs.Steps.{newest_of, older_of, IsAtItem, HasShadow, Did, Makes};

    // The shadow gets the value.
    pub(crate) fn shade(&mut self, x: u32, value: Value)
        requires item { IsAtItem self.old }
        requires shadow { HasShadow self.old x }
        ensures { Did self.old (under self.old advances (with_locations (shadowed x value (newest_of self.old).locations) (newest_of self.old)) (older_of self.old) (state_of self.old)) self.new }
    {
        self.newest.shade(x, value);
        self.newest.advance();
    }

    // The locations as they are become the newest save. Nothing changes where memory is wanting.
    pub(crate) fn speculate(&mut self) -> Result<(), AllocError>
        requires { IsAtItem self.old }
        ensures ok { OnOk result (Makes self.old (under self.old speculates) self.new) }
        ensures err { OnErr result (self.new ≡ self.old) }
    {
        self.newest.save()?;
        self.newest.advance();
        Ok(())
    }

    // The newest save is dropped.
    pub(crate) fn commit(&mut self)
        requires { IsAtItem self.old }
        ensures { Makes self.old (under self.old commits) self.new }
    {
        self.newest.drop_save();
        self.newest.advance();
    }

    // Nothing where the condition holds. Else the failure is counted, the locations become those of the newest save, which
    // is dropped, and the frame goes to the label.
    pub(crate) fn guard(&mut self, holds: bool, label: u32)
        requires { IsAtItem self.old }
        ensures { Makes self.old (under self.old guards holds label) self.new }
    {
        if holds {
            return self.advance();
        }
        self.count_failure();
        self.newest.put_back();
        self.jump(label);
    }

    // The guard at which the newest frame stands failed once more.
    fn count_failure(&mut self)
        requires { IsAtItem self.old }
        ensures { Did self.old (under self.old with_failure (newest_of self.old) (state_of self.old)) self.new }
    {
        let table = &mut self.tables[self.newest.function() as usize];
        table.count_failure(self.newest.point());
    }
}
