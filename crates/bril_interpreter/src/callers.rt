// The frames that wait for a call to return.

ghost use Rattle.std.specs.Prelude.{◌≡◌, ◌<◌, ◌≤◌, ◌-◌, ◌^◌, ◌++◌, [], ◌∷◌, length, map, replicate, slice_get, take, None, Some, MatchBool, MatchOption, OnOk, OnErr};
ghost use Rattle.bril_heap.specs.Heap.{entries_of};
ghost use Rattle.bril_tree.specs.State.{read};
ghost use Rattle.bril_interpreter.specs.Frames.{CanTake, Took};

use crate::entry::Entry;
use crate::frame::Frame;
use crate::locals::Locals;
use std::alloc::{AllocError, Global};
use std::marker::Model;
use std::mem;

// The first `depth` frames wait, the newest last. Those behind them are of calls that returned, and are kept for later ones.
#[derive(Drop)]
pub struct Callers {
    depth: usize,
    frames: Vec<Frame>,
}

impl Model for Callers {
    ghost use Rattle.std.specs.Prelude.{List, ◌≤◌, length, take, reverse};
    ghost use Rattle.bril_interpreter.specs.Frames.{FrameView};

    ghost Value = { List FrameView };

    ghost view = { λ c. reverse (take c.depth c.frames.items) };

    ghost invariant = { λ c. c.depth ≤ length c.frames.items };
}

// Makes a place behind the first frames. Where memory is wanting there is none.
#[inline(always)]
fn make_place(frames: &mut Vec<Frame>, depth: usize) -> Result<(), AllocError>
    requires { depth ≤ length frames.old.items }
    ensures same { take depth frames.new.items ≡ take depth frames.old.items }
    ensures within { depth ≤ length frames.new.items }
    ensures place { OnOk result (depth < length frames.new.items) }
{
    if depth < frames.len() {
        return Ok(());
    }
    add_frame(frames)
}

// A frame more, whatever it holds.
#[inline(never)]
fn add_frame(frames: &mut Vec<Frame>) -> Result<(), AllocError>
    ensures same { take (length frames.old.items) frames.new.items ≡ frames.old.items }
    ensures place { OnOk result (length frames.old.items < length frames.new.items) }
{
    let alloc = *frames.allocator();
    let frame = Frame::start(alloc, 0, Locals::none(alloc))?;
    frames.push(frame)?;
    Ok(())
}

impl Callers {
    // None. Takes no memory.
    pub fn none(alloc: Global) -> Callers
        ensures { result ≡ [] }
    {
        Callers {
            depth: 0,
            frames: Vec::new(alloc),
        }
    }

    // How many there are.
    #[inline(always)]
    pub fn count(&self) -> usize
        ensures count { result ≡ length self.now }
        ensures few { result < 2 ^ 63 }
    {
        self.depth
    }

    // The newest, where there is one.
    #[inline(always)]
    pub fn newest(&self) -> Option<&Frame>
        ensures { MatchOption result (slice_get self.now 0 ≡ None) (λ caller. slice_get self.now 0 ≡ Some caller.now) }
    {
        if self.depth == 0 {
            return None;
        }
        Some(&self.frames[self.depth - 1])
    }

    // A call: the newest frame waits, and the frame of a function takes its place, with the values of these variables.
    // Nothing changes where memory is wanting.
    #[inline(always)]
    pub fn call(
        &mut self,
        newest: &mut Frame,
        function: u32,
        args: &[u32],
        variables: usize,
        shades: &[Entry],
    ) -> Result<(), AllocError>
        ensures callers { OnOk result (self.new ≡ newest.old ∷ self.old) }
        ensures frame { OnOk result (newest.new ≡ record { function = function; point = 0; locations = newest.new.locations; saves = [] }) }
        ensures vars { OnOk result (newest.new.locations.vars ≡ map Some (map (read (entries_of newest.old.locations.vars)) args.now) ++ replicate (variables - length args.now) None) }
        ensures shadows { OnOk result (newest.new.locations.shadows ≡ shades.now) }
        ensures err { OnErr result ((self.new ≡ self.old) × (newest.new ≡ newest.old)) }
    {
        let depth = self.depth;
        make_place(&mut self.frames, depth)?;
        mem::swap(newest, &mut self.frames[depth]);
        match newest.renew(
            function,
            self.frames[depth].locations(),
            args,
            variables,
            shades,
        ) {
            Ok(()) => {
                self.depth = depth + 1;
                Ok(())
            }
            Err(error) => {
                mem::swap(newest, &mut self.frames[depth]);
                Err(error)
            }
        }
    }

    // The newest of them takes the place of the newest frame, where there is one, and tells whether.
    pub fn go_back(&mut self, newest: &mut Frame) -> bool
        ensures { MatchBool result (self.old ≡ newest.new ∷ self.new) ((self.old ≡ []) × (self.new ≡ []) × (newest.new ≡ newest.old)) }
    {
        if self.depth == 0 {
            return false;
        }
        let depth = self.depth - 1;
        mem::swap(newest, &mut self.frames[depth]);
        self.depth = depth;
        true
    }

    // The newest of them takes the place of the newest frame, with what is read of a variable of that one for one of its own, at its
    // next point.
    #[inline(always)]
    pub fn give_back(&mut self, newest: &mut Frame, x: u32, dest: u32)
        requires { CanTake dest self.old }
        ensures { Took dest (read (entries_of newest.old.locations.vars) x) self.old newest.new self.new }
    {
        let depth = self.depth - 1;
        mem::swap(newest, &mut self.frames[depth]);
        newest.take(dest, self.frames[depth].locations(), x);
        self.depth = depth;
    }
}
