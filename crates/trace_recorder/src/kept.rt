// An entry that was begun.

ghost use Rattle.std.specs.Prelude.{◌≡◌, ◌≤◌, IfOk, length};
ghost use Rattle.trace_recorder.specs.Counts.{IsPlaceOf};
ghost use Rattle.trace_recorder.specs.Kept.{closed, closed_if, is_at, ranked_entry, IsNamed, IsWithin};

use crate::arrival::Arrival;
use bril_profile::Entry;
use bril_tree::name::Name;
use bril_tree::program::Prog;
use bril_tree::sequence::Seq;
use std::alloc::{AllocError, Global};

// The names of an entry, and where its label stands.
#[derive(Drop)]
pub struct Named {
    pub func: Name,
    pub label: Name,
    pub place: Arrival,
}

// An entry that was begun: how many items had been met and laid then, where its choices start in the log, and where they end,
// once its path has ended.
#[derive(Drop)]
pub struct Kept {
    pub named: Named,
    pub items: u64,
    pub laid: u64,
    pub start: usize,
    pub end: Option<usize>,
}

impl Named {
    // The names of an arrival's label.
    pub fn of(alloc: Global, prog: &Prog, arrival: Arrival) -> Result<Named, AllocError>
        requires { IsPlaceOf prog.now arrival }
        ensures { IfOk result (IsNamed prog.now arrival) }
    {
        let func = &prog.funcs.as_slice()[arrival.func as usize];
        Ok(Named {
            func: func.name.copied(alloc)?,
            label: func.labels.as_slice()[arrival.label as usize].copied(alloc)?,
            place: arrival,
        })
    }
}

impl Kept {
    // Its path has ended, with the choices up to this end, unless it ended before.
    pub fn close(&mut self, end: usize)
        ensures { self.new ≡ closed end self.old }
    {
        if self.end.is_none() {
            self.end = Some(end);
        }
    }

    // Its path ends, if the arrival is at its label.
    pub fn close_at(&mut self, arrival: Arrival, end: usize)
        ensures { self.new ≡ closed_if (is_at arrival self.old.named.place) end self.old }
    {
        if arrival.func == self.named.place.func && arrival.point == self.named.place.point {
            self.close(end);
        }
    }

    // The entry, with this count.
    pub fn entry(&self, alloc: Global, log: &[bool], count: u32) -> Result<Entry, AllocError>
        requires { IsWithin (length log.now) self.now }
        ensures { IfOk result (λ entry. entry ≡ ranked_entry log.now self.now count) }
    {
        let end = self.end.unwrap_or(log.len());
        Ok(Entry {
            func: self.named.func.copied(alloc)?,
            label: self.named.label.copied(alloc)?,
            choices: Seq::of_items(log[self.start..end].to_vec(alloc)?),
            count,
        })
    }
}
