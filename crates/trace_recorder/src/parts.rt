// What a recorder holds, and how it sees a state.

ghost use Rattle.std.specs.Prelude.{◌≡◌, ◌<◌, ◌≤◌, ◌∷◌, [], ◌++◌, ℕ, List, All, None, Some, false, length, map, vec_capacity, IsSome, MatchBool, OnOk, OnErr, IfOk, IfErr};
ghost use Rattle.std.specs.Option.{option_map};
ghost use Rattle.bril_interpreter.specs.Interpreter.{state_of};
ghost use Rattle.bril_interpreter.specs.Steps.{RanOn};
ghost use Rattle.bril_tree.specs.State.{State};
ghost use Rattle.trace_recorder.specs.declared.arrival.Arrival.{Arrival as Arrived};
ghost use Rattle.trace_recorder.specs.Counts.{AreFirst, IsPlaceOf, counted_at, counts_from};
ghost use Rattle.trace_recorder.specs.Kept.{view_of, counts_in, numbers_in, entry_at, ranks_from, AreBegun, HasRoom, HasTables, IsSound, StateSeen, begun_held};
ghost use Rattle.trace_recorder.specs.Sight.{sight, arrival as arrival_of};
ghost use Rattle.trace_recorder.specs.Standing.{StandsFor, TakesChoice, begins, entries_of, seeing, states_before};

use crate::arrival::{Arrival, arrival_at};
use crate::counts::{Tables, count, count_at, first_tables, is_hot, set_number};
use crate::kept::Named;
use crate::passing::Passing;
use crate::paths::Paths;
use crate::seen::seen_at;
use bril_interpreter::Interp;
use bril_profile::Entry;
use bril_tree::program::Prog;
use std::alloc::{AllocError, Global};
use trace_paths::{Ranked, first_in_turn};

// The parts of a recorder: the number of arrivals that makes a label hot, the greatest number of entries, the counts
// of arrivals and the numbers of entries by label, none before the first state, and the entries that were begun.
#[derive(Drop)]
pub struct Parts {
    pub alloc: Global,
    pub hot: u32,
    pub most: u32,
    pub tables: Tables,
    pub paths: Paths,
}

impl Parts {
    // Sees the state before a step. At most states no path goes on: they are no arrivals, and nothing is to be done, or arrivals that
    // begin no entry, which are counted alone.
    pub fn see(&mut self, now: &Interp<'_>) -> Result<(), AllocError>
        requires { IsSound self.old }
        ensures sound { IsSound self.new }
        ensures seen { StateSeen result (view_of self.old) (view_of self.new) now.now.checked.prog (state_of now.now) }
    {
        let arrival = arrival_at(now);
        if !self.paths.are_open() {
            let Some(label) = arrival else {
                return Ok(());
            };
            if self.only_counts(label) {
                self.count(None, arrival);
                return Ok(());
            }
        }
        self.see_all(now, arrival)
    }

    // Makes at most so many steps at which nothing is to be done but to count arrivals, and gives how many: none while a path may go
    // on, and before the first state. Takes no memory.
    pub fn run_counting(&mut self, now: &mut Interp<'_>, most: u64) -> u64
        requires { IsSound self.old }
        ensures sound { IsSound self.new }
        ensures most { result ≤ most }
        ensures ran { RanOn result now.old now.new }
        ensures stands { (hot most : ℕ) (run : List State) → StandsFor (view_of self.old) now.old.checked.prog hot most run
            → StandsFor (view_of self.new) now.old.checked.prog hot most (run ++ states_before now.old result) }
    {
        if self.counts_alone() {
            now.run_counting(most, self.hot, &mut self.tables.counts)
        } else {
            0
        }
    }

    // Whether there are counts, and no path goes on.
    fn counts_alone(&self) -> bool
        ensures { MatchBool result (((view_of self.now).counts ≡ [] → ⊥) × (length self.now.paths.held.items ≤ self.now.paths.front)) (Unit {0}) }
    {
        !self.tables.counts.is_empty() && !self.paths.are_open()
    }

    // Whether there are counts, and the arrival isn't the hot one.
    fn only_counts(&self, arrival: Arrival) -> bool
        ensures { MatchBool result (((view_of self.now).counts ≡ [] → ⊥) × (begins (view_of self.now) (Some arrival) ≡ None)) (Unit {0}) }
    {
        !self.tables.counts.is_empty() && !is_hot(count_at(&self.tables.counts, arrival), self.hot)
    }

    // Sees any state. All memory is taken before anything changes.
    fn see_all(&mut self, now: &Interp<'_>, arrival: Option<Arrival>) -> Result<(), AllocError>
        requires sound { IsSound self.old }
        requires arrival { arrival ≡ arrival_of (sight now.now.checked.prog (state_of now.now)) }
        ensures sound { IsSound self.new }
        ensures seen { StateSeen result (view_of self.old) (view_of self.new) now.now.checked.prog (state_of now.now) }
    {
        let prog = now.prog().prog();
        let first = self.first_tables(prog)?;
        let named = self.named_if_hot(prog, arrival)?;
        self.follow(now, arrival)?;
        self.count(first, arrival);
        self.hold(named);
        Ok(())
    }

    // The tables before the first state, where there are none yet.
    fn first_tables(&self, prog: &Prog) -> Result<Option<Tables>, AllocError>
        ensures memory { IfErr result (λ _. (view_of self.now).counts ≡ []) }
        ensures first { IfOk result (λ first. AreFirst prog.now (view_of self.now).counts (option_map counts_in first)) }
        ensures numbers { IfOk result (λ first. option_map numbers_in first ≡ option_map counts_in first) }
    {
        if !self.tables.counts.is_empty() {
            return Ok(None);
        }
        Ok(Some(first_tables(self.alloc, prog.funcs.as_slice())?))
    }

    // The names of the arrival's label, where it is the hot one, and room for its entry.
    fn named_if_hot(
        &mut self,
        prog: &Prog,
        arrival: Option<Arrival>,
    ) -> Result<Option<Named>, AllocError>
        requires sound { IsSound self.old }
        requires place { (a : Arrived) → arrival ≡ Some a → IsPlaceOf prog.now a }
        ensures sound { IsSound self.new }
        ensures view { view_of self.new ≡ view_of self.old }
        ensures named { IfOk result (AreBegun prog.now (begins (view_of self.old) arrival)) }
        ensures room { IfOk result (HasRoom (length self.new.paths.held.items) (vec_capacity self.new.paths.held)) }
        ensures memory { OnErr result (IsSome (begins (view_of self.old) arrival)) }
    {
        let Some(arrival) = arrival else {
            return Ok(None);
        };
        if !is_hot(count_at(&self.tables.counts, arrival), self.hot) {
            return Ok(None);
        }
        self.paths.reserve()?;
        Ok(Some(Named::of(self.alloc, prog, arrival)?))
    }

    // The run makes the next state in the paths of the entries.
    fn follow(&mut self, now: &Interp<'_>, arrival: Option<Arrival>) -> Result<(), AllocError>
        requires sound { IsSound self.old }
        requires arrival { arrival ≡ arrival_of (sight now.now.checked.prog (state_of now.now)) }
        ensures sound { IsSound self.new }
        ensures rest { self.new ≡ record self.old { paths = self.new.paths } }
        ensures view { OnOk result ((hot most : ℕ) (run : List State) → StandsFor (view_of self.old) now.now.checked.prog hot most run
            → (view_of self.new).held ≡ map (seeing (sight now.now.checked.prog (state_of now.now))) (view_of self.old).held) }
        ensures err { OnErr result ((view_of self.new).held ≡ (view_of self.old).held) }
        ensures memory { OnErr result (TakesChoice (view_of self.old) (sight now.now.checked.prog (state_of now.now))) }
        ensures long { length self.new.paths.held.items ≡ length self.old.paths.held.items }
        ensures capacity { vec_capacity self.new.paths.held ≡ vec_capacity self.old.paths.held }
    {
        match arrival {
            Some(arrival) => {
                let number = count_at(&self.tables.numbers, arrival);
                self.paths.arrive(number, arrival);
                Ok(())
            }
            None => self.paths.pass(Passing::at(&seen_at(now))),
        }
    }

    // Counts the arrival, the first one in these tables. Takes no memory.
    fn count(&mut self, first: Option<Tables>, arrival: Option<Arrival>)
        ensures rest { self.new ≡ record self.old { tables = self.new.tables } }
        ensures counts { counts_in self.new.tables ≡ counted_at (counts_from (option_map counts_in first) (counts_in self.old.tables)) arrival }
        ensures numbers { numbers_in self.new.tables ≡ counts_from (option_map numbers_in first) (numbers_in self.old.tables) }
    {
        if let Some(first) = first {
            self.tables = first;
        }
        if let Some(arrival) = arrival {
            count(&mut self.tables.counts, arrival);
        }
    }

    // The entry of these names, if there are any, begins behind the state. Takes no memory.
    fn hold(&mut self, named: Option<Named>)
        requires sound { IsSound self.old }
        requires room { HasRoom (length self.old.paths.held.items) (vec_capacity self.old.paths.held) named }
        requires tables { HasTables (counts_in self.old.tables) named }
        ensures sound { IsSound self.new }
        ensures view { view_of self.new ≡ record (view_of self.old) { held = (view_of self.old).held ++ begun_held named } }
    {
        let Some(named) = named else {
            return;
        };
        let place = named.place;
        self.paths.begin(named);
        set_number(
            &mut self.tables.numbers,
            place,
            self.paths.held.len() as u32,
        );
    }

    // The profile's entries.
    pub fn entries(&self) -> Result<Vec<Entry>, AllocError>
        requires { IsSound self.now }
        ensures { IfOk result (λ entries. entries.items ≡ entries_of (view_of self.now)) }
    {
        let ranks = self.ranks()?;
        let first = first_in_turn(self.alloc, ranks.as_slice(), self.most as usize)?;
        self.entries_at(first.as_slice())
    }

    // The entries at these places, with these counts.
    fn entries_at(&self, ranks: &[Ranked]) -> Result<Vec<Entry>, AllocError>
        requires sound { IsSound self.now }
        requires within { All (λ rank. rank.place < length self.now.paths.held.items) ranks.now }
        ensures { IfOk result (λ entries. entries.items ≡ map (entry_at self.now.paths.log.items self.now.paths.held.items) ranks.now) }
    {
        let mut entries = Vec::with_capacity(self.alloc, ranks.len())?;
        for rank in ranks {
            let kept = &self.paths.held[rank.place];
            entries.push(kept.entry(self.alloc, self.paths.log.as_slice(), rank.count)?)?;
        }
        Ok(entries)
    }

    // The entries that were begun, by their places and counts.
    fn ranks(&self) -> Result<Vec<Ranked>, AllocError>
        ensures { IfOk result (λ ranks. ranks.items ≡ ranks_from (view_of self.now).counts 0 self.now.paths.held.items) }
    {
        let mut ranks = Vec::with_capacity(self.alloc, self.paths.held.len())?;
        for (place, kept) in self.paths.held.iter().enumerate() {
            // The arrival that began the entry was one.
            let count = count_at(&self.tables.counts, kept.named.place).max(1);
            ranks.push(Ranked { place, count })?;
        }
        Ok(ranks)
    }
}
