// The saves of a frame.

ghost use Rattle.std.specs.Prelude.{◌≡◌, ◌<◌, ◌≤◌, [], ◌∷◌, length, take, OnOk, OnErr};
ghost use Rattle.bril_interpreter.specs.Frames.{without_newest, newest_or};

use crate::entry::Entry;
use crate::locals::Locals;
use std::alloc::{AllocError, Global};
use std::marker::Model;
use std::mem;

// The first `depth` lists are the saves, the newest last. Those behind them were saves once, and are kept for later ones.
#[derive(Drop)]
pub struct Saves {
    depth: usize,
    lists: Vec<Locals>,
}

impl Model for Saves {
    ghost use Rattle.std.specs.Prelude.{List, ◌≤◌, length, take, reverse};
    ghost use Rattle.bril_interpreter.specs.Frames.{LocalsView};

    ghost Value = { List LocalsView };

    ghost view = { λ s. reverse (take s.depth s.lists.items) };

    ghost invariant = { λ s. s.depth ≤ length s.lists.items };
}

// Makes a place behind the first lists. Where memory is wanting there is none.
#[inline(always)]
fn make_place(lists: &mut Vec<Locals>, depth: usize) -> Result<(), AllocError>
    requires { depth ≤ length lists.old.items }
    ensures same { take depth lists.new.items ≡ take depth lists.old.items }
    ensures within { depth ≤ length lists.new.items }
    ensures place { OnOk result (depth < length lists.new.items) }
{
    if depth < lists.len() {
        return Ok(());
    }
    let alloc = *lists.allocator();
    lists.push(Locals::none(alloc))?;
    Ok(())
}

impl Saves {
    // No saves. Takes no memory.
    pub fn none(alloc: Global) -> Saves
        ensures { result ≡ [] }
    {
        Saves {
            depth: 0,
            lists: Vec::new(alloc),
        }
    }

    // All saves are dropped.
    pub fn clear(&mut self)
        ensures { self.new ≡ [] }
    {
        self.depth = 0;
    }

    // How many there are.
    pub fn count(&self) -> usize
        ensures { result ≡ length self.now }
    {
        self.depth
    }

    // What variables and shadows hold becomes the newest save. Nothing changes where memory is wanting. It is no part of the loop of
    // quick steps, which has no registers to spare.
    #[inline(never)]
    pub fn save(&mut self, vars: &[Entry], shadows: &[Entry]) -> Result<(), AllocError>
        ensures ok { OnOk result (self.new ≡ (record { vars = vars.now; shadows = shadows.now }) ∷ self.old) }
        ensures err { OnErr result (self.new ≡ self.old) }
    {
        let depth = self.depth;
        make_place(&mut self.lists, depth)?;
        self.lists[depth].copy_from(vars, shadows)?;
        self.depth = depth + 1;
        Ok(())
    }

    // The newest save is dropped, where there is one.
    #[inline(always)]
    pub fn drop_newest(&mut self)
        ensures { self.new ≡ without_newest self.old }
    {
        if self.depth > 0 {
            self.depth -= 1;
        }
    }

    // The locations become those of the newest save, which is dropped, where there is one.
    pub fn put_back(&mut self, locations: &mut Locals)
        ensures locations { locations.new ≡ newest_or self.old locations.old }
        ensures saves { self.new ≡ without_newest self.old }
    {
        if self.depth > 0 {
            let newest = self.depth - 1;
            mem::swap(locations, &mut self.lists[newest]);
            self.depth = newest;
        }
    }
}
