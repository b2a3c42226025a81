// The entries that were begun, and the paths that go on.

ghost use Rattle.std.specs.Prelude.{◌≡◌, ◌<◌, ◌≤◌, ◌+◌, ◌^◌, ◌∷◌, [], ◌++◌, suc, true, Bool, Option, All, OnErr, OnOk, length, map, nat_lt, slice_get, Some, vec_len, vec_capacity};
ghost use Rattle.std.specs.List.{list_any};
ghost use Rattle.trace_recorder.specs.declared.kept.Kept.{Kept as Began};
ghost use Rattle.trace_recorder.specs.declared.passing.Passing.TheVariants.{Over};
ghost use Rattle.trace_recorder.specs.Kept.{closed_if, ending, has_ended, is_at, named_held, paths_view, places_of, ClosesSome, IsNumbered, AreEnded, AreParted, ArePaths, OwnEnded};
ghost use Rattle.trace_recorder.specs.Passings.{chosen_at, laid_at, passing_of, takes_choice};
ghost use Rattle.trace_recorder.specs.Sight.{Sight};
ghost use Rattle.trace_recorder.specs.Standing.{may_lay, seeing};

use crate::arrival::Arrival;
use crate::kept::{Kept, Named};
use crate::passing::Passing;
use std::alloc::{AllocError, Global};

// The entries that were begun, in their order, and one log of the choices that the run took while the path of some entry went
// on. So many items were met, and so many laid, meanwhile. The paths of all entries before `front` have ended.
#[derive(Drop)]
pub struct Paths {
    pub held: Vec<Kept>,
    pub log: Vec<bool>,
    pub items: u64,
    pub laid: u64,
    pub front: usize,
}

impl Paths {
    // Those of a run before its first state. Takes no memory.
    pub fn new(alloc: Global) -> Paths
        ensures kept { ArePaths result }
        ensures view { paths_view result ≡ [] }
    {
        Paths {
            held: Vec::new(alloc),
            log: Vec::new(alloc),
            items: 0,
            laid: 0,
            front: 0,
        }
    }

    // Whether some path may go on.
    pub fn are_open(&self) -> bool
        ensures { result ≡ nat_lt self.now.front (length self.now.held.items) }
    {
        self.front < self.held.len()
    }

    // Makes room for one entry more; an error too where there are 2^32 - 1. Where it fails all stays.
    pub fn reserve(&mut self) -> Result<(), AllocError>
        ensures rest { self.new ≡ record self.old { held = self.new.held } }
        ensures items { self.new.held.items ≡ self.old.held.items }
        ensures room { OnOk result (length self.new.held.items < vec_capacity self.new.held) }
        ensures few { OnOk result (suc (length self.new.held.items) < 2 ^ 32) }
    {
        if self.held.len() >= u32::MAX as usize {
            return Err(AllocError);
        }
        self.held.reserve(1)
    }

    // The run arrives at a label, whose entry has this number, counted from 1, if it has one. Takes no memory.
    pub fn arrive(&mut self, number: u32, arrival: Arrival)
        requires { ArePaths self.old }
        ensures kept { ArePaths self.new }
        ensures view { IsNumbered arrival number 1 self.old.held.items → (s : Sight) → s.function ≡ arrival.func → s.point ≡ arrival.point → Over ≡ passing_of (Some s) → paths_view self.new ≡ map (seeing (Some s)) (paths_view self.old) }
        ensures places { places_of self.new ≡ places_of self.old }
        ensures capacity { vec_capacity self.new.held ≡ vec_capacity self.old.held }
    {
        self.close_own(number, arrival);
        let front = self.next_front(Passing::Over);
        self.go(front, Passing::Over);
    }

    // The run passes a state that is no arrival. Where a path takes a choice memory may be taken, before anything changes.
    pub fn pass(&mut self, passing: Passing) -> Result<(), AllocError>
        requires { ArePaths self.old }
        ensures kept { ArePaths self.new }
        ensures view { OnOk result ((s : Option Sight) → passing ≡ passing_of s → OwnEnded s self.old.held.items → paths_view self.new ≡ map (seeing s) (paths_view self.old)) }
        ensures err { OnErr result (paths_view self.new ≡ paths_view self.old) }
        ensures memory { OnErr result ((takes_choice passing ≡ true) × (list_any may_lay (paths_view self.old) ≡ true)) }
        ensures places { places_of self.new ≡ places_of self.old }
        ensures capacity { vec_capacity self.new.held ≡ vec_capacity self.old.held }
    {
        let front = self.next_front(passing);
        if front < self.held.len() && passing.takes_choice() {
            self.log.reserve(1)?;
        }
        self.go(front, passing);
        Ok(())
    }

    // An entry begins, behind the state. Takes no memory.
    pub fn begin(&mut self, named: Named)
        requires kept { ArePaths self.old }
        requires room { length self.old.held.items < vec_capacity self.old.held }
        requires few { suc (length self.old.held.items) < 2 ^ 32 }
        ensures kept { ArePaths self.new }
        ensures view { paths_view self.new ≡ paths_view self.old ++ named_held named ∷ [] }
        ensures places { places_of self.new ≡ places_of self.old ++ named.place ∷ [] }
    {
        let kept = Kept {
            named,
            items: self.items,
            laid: self.laid,
            start: self.log.len(),
            end: None,
        };
        self.held.push_reserved(kept);
    }

    // The path of the entry of this number ends, if its label is here.
    fn close_own(&mut self, number: u32, arrival: Arrival)
        requires { ArePaths self.old }
        ensures kept { ArePaths self.new }
        ensures rest { self.new ≡ record self.old { held = self.new.held } }
        ensures held { IsNumbered arrival number 1 self.old.held.items
            → self.new.held.items ≡ map (λ k. closed_if (is_at arrival k.named.place) (length self.old.log.items) k) self.old.held.items }
        ensures places { places_of self.new ≡ places_of self.old }
        ensures capacity { vec_capacity self.new.held ≡ vec_capacity self.old.held }
    {
        let end = self.log.len();
        close_numbered(&mut self.held, number as usize, arrival, end);
    }

    // The first entry, from `front` on, whose path goes on over such a state.
    fn next_front(&self, passing: Passing) -> usize
        requires { ArePaths self.now }
        ensures { AreParted passing self.now.items self.now.laid result self.now.held.items }
    {
        let mut front = self.front;
        'ended: while front < self.held.len() && self.has_ended(front, passing) {
            front += 1;
        }
        front
    }

    // Whether the path of the entry has ended, or ends at such a state.
    fn has_ended(&self, place: usize, passing: Passing) -> bool
        requires kept { ArePaths self.now }
        requires within { place < length self.now.held.items }
        ensures { (k : Began) → slice_get self.now.held.items place ≡ Some k → result ≡ has_ended passing self.now.items self.now.laid k }
    {
        let kept = &self.held[place];
        kept.end.is_some()
            || passing.stops()
            || kept.items + 1023 <= self.items
            || passing.lays() && kept.laid + 256 <= self.laid
    }

    // The paths of the entries before this front end, and those that go on pass the state. Takes no memory.
    fn go(&mut self, front: usize, passing: Passing)
        requires kept { ArePaths self.old }
        requires parted { AreParted passing self.old.items self.old.laid front self.old.held.items }
        requires room { front < length self.old.held.items → takes_choice passing ≡ true → vec_len self.old.log < vec_capacity self.old.log }
        ensures kept { ArePaths self.new }
        ensures view { (s : Option Sight) → passing ≡ passing_of s → OwnEnded s self.old.held.items → paths_view self.new ≡ map (seeing s) (paths_view self.old) }
        ensures places { places_of self.new ≡ places_of self.old }
        ensures capacity { vec_capacity self.new.held ≡ vec_capacity self.old.held }
    {
        self.close_before(front);
        if front < self.held.len() {
            self.meet(passing);
        }
    }

    // The paths of the entries before this front end.
    fn close_before(&mut self, front: usize)
        requires ended { AreEnded self.old.front self.old.held.items }
        requires within { front ≤ length self.old.held.items }
        ensures held { self.new.held.items ≡ ending (length self.old.log.items) front self.old.held.items }
        ensures rest { self.new ≡ record self.old { held = self.new.held; front = front } }
        ensures capacity { vec_capacity self.new.held ≡ vec_capacity self.old.held }
    {
        let end = self.log.len();
        close_until(&mut self.held, self.front, front, end);
        self.front = front;
    }

    // The paths that go on pass the state. Takes no memory.
    fn meet(&mut self, passing: Passing)
        requires items { suc self.old.items < 2 ^ 63 }
        requires laid { self.old.laid ≤ self.old.items }
        requires room { takes_choice passing ≡ true → vec_len self.old.log < vec_capacity self.old.log }
        ensures log { self.new.log.items ≡ self.old.log.items ++ chosen_at passing }
        ensures rest { self.new ≡ record self.old { log = self.new.log; items = suc self.old.items; laid = self.old.laid + laid_at passing } }
    {
        self.items += 1;
        if passing.lays() {
            self.laid += 1;
        }
        if let Passing::Turns(choice) = passing {
            self.log.push_reserved(choice);
        }
    }
}

// The path of the entry of this number, counted from 1, ends, if its label is here.
fn close_numbered(held: &mut Vec<Kept>, number: usize, arrival: Arrival, end: usize)
    ensures closed { ClosesSome end held.old.items held.new.items }
    ensures own { IsNumbered arrival number 1 held.old.items → held.new.items ≡ map (λ k. closed_if (is_at arrival k.named.place) end k) held.old.items }
    ensures capacity { vec_capacity held.new ≡ vec_capacity held.old }
{
    if number > 0 && number <= held.len() {
        held[number - 1].close_at(arrival, end);
    }
}

// The paths of the entries before `front` end, those before `from` having ended.
fn close_until(held: &mut Vec<Kept>, from: usize, front: usize, end: usize)
    requires ended { AreEnded from held.old.items }
    requires within { front ≤ length held.old.items }
    ensures held { held.new.items ≡ ending end front held.old.items }
    ensures capacity { vec_capacity held.new ≡ vec_capacity held.old }
{
    for k in from..front {
        held[k].close(end);
    }
}
