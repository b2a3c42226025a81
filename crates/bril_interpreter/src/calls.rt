// Calls and returns.

ghost use Rattle.std.specs.Prelude.{◌≡◌, suc, true, nat_lt, length, IfSome, OnOk, OnErr};
ghost use Rattle.bril_tree.specs.Operand.{dest_of};

use crate::interp::Interp;
use crate::quick::Quick;
use crate::table::{blank_of, shades_in};
use bril_tree::limits::{End, Fault};
use bril_tree::numbered::Instr;
use bril_tree::value::Value;
use std::alloc::AllocError;

// The destination of an item, where it has one.
fn dest_in(item: &Instr) -> Option<u32>
    ensures { result ≡ dest_of item.now }
{
    match item {
        Instr::Label(_) => None,
        Instr::Const { dest, .. } => Some(*dest),
        Instr::Act { dest, .. } => *dest,
    }
}

impl<'a> Interp<'a> {
    ghost use Rattle.bril_tree.specs.State.{read};
    ghost use Rattle.bril_tree.specs.Step.{calls, returns, ends, awaited};
    ghost use Rattle.bril_tree.specs.Memory.{is_live_any};
    ghost use Rattle.bril_interpreter.specs.Interpreter.{state_of, under};
    ghost use Rattle.bril_interpreter.specs.Steps.{newest_of, older_of, values_in, item_of, Awaits, IsAtItem, HasDest, Did, Makes};

    // A frame more, where the limit allows it. Memory is wanting only where it does, and then nothing changes.
    #[inline(always)]
    pub(crate) fn call(&mut self, callee: u32, args: &[u32]) -> Result<(), AllocError>
        requires { IsAtItem self.old }
        ensures ok { OnOk result (Makes self.old (under self.old calls callee (values_in self.old args.now)) self.new) }
        ensures room { OnErr result (nat_lt (suc (length (older_of self.old))) self.old.limits.frames ≡ true) }
        ensures err { OnErr result (self.new ≡ self.old) }
    {
        if !self.has_room() {
            self.fault(Fault::Frames);
            return Ok(());
        }
        Ok(self.enter(callee, args)?)
    }

    // Whether the limit allows a frame more.
    #[inline(always)]
    pub(crate) fn has_room(&self) -> bool
        ensures { result ≡ nat_lt (suc (length (older_of self.now))) self.now.limits.frames }
    {
        self.older.count() + 1 < self.limits.frames as usize
    }

    // A frame more, which the limit allows. Nothing changes where memory is wanting.
    #[inline(always)]
    pub(crate) fn enter(&mut self, callee: u32, args: &[u32]) -> Result<(), AllocError>
        requires item { IsAtItem self.old }
        requires room { nat_lt (suc (length (older_of self.old))) self.old.limits.frames ≡ true }
        ensures ok { OnOk result (Makes self.old (under self.old calls callee (values_in self.old args.now)) self.new) }
        ensures err { OnErr result (self.new ≡ self.old) }
    {
        let tables = self.tables.as_slice();
        let variables = blank_of(tables, callee).len();
        let shades = shades_in(tables, callee);
        self.older
            .call(&mut self.newest, callee, args, variables, shades)?;
        Ok(())
    }

    // The newest frame is popped, and its value goes to the call at which its caller stands.
    pub(crate) fn return_value(&mut self, value: Value)
        ensures { Did self.old (under self.old returns value (older_of self.old) (state_of self.old)) self.new }
    {
        if self.older.go_back(&mut self.newest) {
            let dest = self.awaited();
            self.give(dest, value);
        } else {
            self.finish();
        }
    }

    // The newest frame is popped, and what is read of its variable goes to the call at which its caller stands.
    #[inline(always)]
    pub(crate) fn give_back(&mut self, x: u32, dest: u32)
        requires { Awaits self.old dest }
        ensures { Did self.old (under self.old returns (read (newest_of self.old).locations.vars x) (older_of self.old) (state_of self.old)) self.new }
    {
        self.older.give_back(&mut self.newest, x, dest);
    }

    // The destination of the call at which the newest caller stands, where it is found among the quick items.
    #[inline(always)]
    pub(crate) fn awaited_quickly(&self) -> Option<u32>
        ensures { IfSome result (λ dest. Awaits self.now dest) }
    {
        let caller = self.older.newest()?;
        let table = self.tables.get(caller.function() as usize)?;
        match table.quick().get(caller.point()) {
            Some(Quick::Call { dest, .. }) => *dest,
            _ => None,
        }
    }

    // The destination of the item at which the newest frame stands.
    fn awaited(&self) -> Option<u32>
        ensures value { result ≡ under self.now awaited (item_of self.now) }
        ensures place { HasDest self.now result }
    {
        match self.item() {
            Some(item) => dest_in(item),
            None => None,
        }
    }

    // The first frame ends.
    fn finish(&mut self)
        ensures { Did self.old (under self.old ends (is_live_any (state_of self.old).blocks) (state_of self.old)) self.new }
    {
        self.ended = Some(if self.cells.live() == 0 {
            End::Ended
        } else {
            End::Faulted(Fault::Leak)
        });
    }
}
