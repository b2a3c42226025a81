// The monitor: a machine, and of each word of its image the spot that is there.

ghost use Rattle.std.specs.Prelude.{◌≡◌, ◌+◌, ◌/◌, ◌≤◌, ℕ, false, true, Some, None, IfOk, MatchBool, MatchOption, length, slice_get};
ghost use Rattle.rv64_image_laws.specs.Stops.{home_word};
ghost use Rattle.rv64_machine.specs.MachineView.{has_failed, sizes_in, state_of};
ghost use Rattle.rv64_words.specs.Points.{ArePointsIn};
ghost use Rattle.rv64_words.specs.Region.{most_stack, most_words};
ghost use Rattle.step_monitor.specs.Spots.{HasItem, NoneMarked, with_marks};

use crate::entry::EntryValue;
use crate::spots::Spots;
use crate::stop::{Place, Stop};
use crate::words::read_word;
use bril_outside::sink::Sink;
use bril_tree::home::Home;
use bril_tree::limits::Limits;
use bril_tree::value::Value;
use rv64_machine::answer::{MachAnswer, RunAnswer};
use rv64_machine::machine::Machine;
use rv64_words::image::Image;
use rv64_words::points::{HomeAt, Points};
use std::alloc::{AllocError, Global};

/// A machine with the points of its image, whether it has stopped where it stands, and the word of the point at which the last call
/// that ran it stopped, `None` where it stopped at none.
#[derive(Drop)]
pub struct Monitor {
    machine: Machine,
    spots: Spots,
    left: bool,
    stop: Option<usize>,
}

impl Monitor {
    ghost use Rattle.step_monitor.specs.MonitorView.{IsEntryIn, IsNext, IsSpotAt, IsValueIn, LeftSo, NoneIsNext, StopSo, entries_in, entry_at, entry_in, from_in, homes_at, is_left, machine_in, spots_in, stop_in};
    ghost use Rattle.step_monitor.specs.Stands.{StandsAfter};
    ghost use Rattle.step_monitor.specs.Went.{Went};

    /// A monitor of an image at its first word, with the arguments on the machine's stack and no point marked. The first item may
    /// itself be the next point. It copies the points with their homes, and takes all the memory that the machine will need: no other
    /// call takes any. Each point's word is inside the image, and no word has two points.
    pub fn new(
        alloc: Global,
        image: &Image,
        points: &Points,
        args: &[Value],
        limits: Limits,
    ) -> Result<Monitor, AllocError>
        requires args { length args.now + 2 ≤ image.now.stack }
        requires stack { image.now.stack ≤ most_stack }
        requires words { length image.now.words ≤ most_words }
        requires points { ArePointsIn image.now points.now }
        ensures stands { IfOk result (StandsAfter image.now points.now limits args.now 0) }
        ensures unmarked { IfOk result (λ monitor. NoneMarked (spots_in monitor)) }
        ensures left { IfOk result (λ monitor. is_left monitor ≡ false) }
        ensures stop { IfOk result (λ monitor. stop_in monitor ≡ None) }
        ensures sound { IfOk result (λ monitor. has_failed (machine_in monitor) ≡ false) }
    {
        let machine = Machine::new(alloc, image, args, limits)?;
        let spots = Spots::new(alloc, image, points)?;
        Ok(Monitor {
            machine,
            spots,
            left: false,
            stop: None,
        })
    }

    /// Marks all points of this item of this function, both counted from 0, or takes their marks away. `false` exactly where no point
    /// has this function and item; then nothing changes. Takes no memory.
    pub fn mark(&mut self, func: u32, item: u32, on: bool) -> bool
        ensures known { MatchBool result (HasItem (spots_in self.old) func item) (HasItem (spots_in self.old) func item → ⊥) }
        ensures marks { spots_in self.new ≡ with_marks func item on (spots_in self.old) }
        ensures unknown { result ≡ false → spots_in self.new ≡ spots_in self.old }
        ensures machine { machine_in self.new ≡ machine_in self.old }
        ensures left { is_left self.new ≡ is_left self.old }
        ensures stop { stop_in self.new ≡ stop_in self.old }
    {
        self.spots.mark(func, item, on)
    }

    /// Runs to the next marked point, by at most so many words. What the words print goes to `out`, each print by one put.
    /// Takes no memory.
    ///
    /// `Break`: the machine is at the point of that item of that function; points that were passed don't count, nor does the one at
    /// which the last `Break` was before a word is executed. `Spent`: exactly so many words were executed without a stop, and the
    /// machine runs on. `End` and `Trap`: it stopped in this call or earlier. `WriteFault`: a print failed in this call or earlier,
    /// and the machine is as it was before that word. After these three each later call answers the same and leaves the machine as it is.
    pub fn go<S: Sink>(&mut self, words: u64, out: &mut S) -> Stop
        ensures went { Went (IsSpotAt (spots_in self.old) false) result (from_in self.old) words (machine_in self.old) (machine_in self.new) (S.seen out.old) (S.seen out.new) }
        ensures spots { spots_in self.new ≡ spots_in self.old }
        ensures left { LeftSo result words (is_left self.old) (is_left self.new) }
        ensures stop { StopSo result self.new }
    {
        self.advance(words, false, out)
    }

    /// Runs to the next point, marked or not, by at most so many words; else like `go`. Takes no memory.
    pub fn step<S: Sink>(&mut self, words: u64, out: &mut S) -> Stop
        ensures went { Went (IsSpotAt (spots_in self.old) true) result (from_in self.old) words (machine_in self.old) (machine_in self.new) (S.seen out.old) (S.seen out.new) }
        ensures spots { spots_in self.new ≡ spots_in self.old }
        ensures left { LeftSo result words (is_left self.old) (is_left self.new) }
        ensures stop { StopSo result self.new }
    {
        self.advance(words, true, out)
    }

    /// The value of a variable, given by its number in its function, from 0, where the machine has stopped at a point: what the word at
    /// the home of its first entry there stands for. `None` exactly where the last `go` or `step` didn't answer `Break`, or the
    /// point has no entry of the variable, or its first entry names no register from 0 to 31 and no word of the stack, or the word
    /// there is that of no value of its type. Takes no memory.
    pub fn value(&self, var: u32) -> Option<Value>
        ensures { IsValueIn self.now var result }
    {
        let entry = self.entry(var)?;
        let word = self.word_at(entry.home)?;
        read_word(entry.ty, word)
    }

    /// How many variables have an entry at the point at which the machine has stopped. 0 where the last `go` or `step` didn't answer
    /// `Break`. Takes no memory.
    pub fn entries(&self) -> usize
        ensures { result ≡ length (entries_in self.now) }
    {
        self.homes().len()
    }

    /// The variable of the entry at this place, from 0, among those of the point at which the machine has stopped, and the value that
    /// the word at its home stands for. `None` exactly where there is no entry at the place, or it names no register from 0 to 31
    /// and no word of the stack, or the word there is that of no value of its type. Takes no memory.
    pub fn entry_value(&self, place: usize) -> Option<EntryValue>
        ensures { IsEntryIn self.now place result }
    {
        let entry = self.home(place)?;
        let word = self.word_at(entry.home)?;
        let value = read_word(entry.ty, word)?;
        Some(EntryValue {
            var: entry.var,
            value,
        })
    }

    /// How many words the machine executed, also in earlier calls. A word that ends the run counts; one that traps or whose print
    /// fails doesn't. The count stays at `u64::MAX`. Takes no memory.
    pub fn done(&self) -> u64
        ensures { result ≡ (state_of (machine_in self.now)).done }
    {
        self.machine.done()
    }

    // ---- values

    // The entries at the point of the last stop.
    fn homes(&self) -> &[HomeAt]
        ensures { result.now ≡ entries_in self.now }
    {
        match self.stop {
            Some(word) => self.homes_at(word),
            None => &[],
        }
    }

    // The same at the spot of a word.
    fn homes_at(&self, word: usize) -> &[HomeAt]
        ensures { result.now ≡ homes_at (slice_get (spots_in self.now) word) }
    {
        match self.spots.by_word.get(word) {
            Some(Some(spot)) => spot.homes.as_slice(),
            _ => &[],
        }
    }

    // The entry at a place.
    fn home(&self, place: usize) -> Option<HomeAt>
        ensures { result ≡ slice_get (entries_in self.now) place }
    {
        self.homes().get(place).copied()
    }

    // The first entry of a variable at the point of the last stop.
    fn entry(&self, var: u32) -> Option<HomeAt>
        ensures { result ≡ entry_in (spots_in self.now) (stop_in self.now) var }
    {
        match self.stop {
            Some(word) => self.entry_at(word, var),
            None => None,
        }
    }

    // The same at the spot of a word.
    fn entry_at(&self, word: usize, var: u32) -> Option<HomeAt>
        ensures { result ≡ entry_at (slice_get (spots_in self.now) word) var }
    {
        match self.spots.by_word.get(word) {
            Some(Some(spot)) => spot.entry(var),
            _ => None,
        }
    }

    // The word at a home, which may name neither a register nor a word of the stack.
    fn word_at(&self, home: Home) -> Option<u64>
        ensures { result ≡ home_word (sizes_in (machine_in self.now)) (state_of (machine_in self.now)) home }
    {
        match home {
            Home::Reg(number) => self.register(number),
            Home::Frame(word) => self.frame_word(word),
        }
    }

    // What a register holds, where there is one of this number.
    fn register(&self, number: u8) -> Option<u64>
        ensures { result ≡ home_word (sizes_in (machine_in self.now)) (state_of (machine_in self.now)) (Home.Reg number) }
    {
        if number < 32 {
            Some(self.machine.register(number as u32))
        } else {
            None
        }
    }

    // The word of this number from the frame's address on, where it is in the stack.
    fn frame_word(&self, word: u32) -> Option<u64>
        ensures { result ≡ home_word (sizes_in (machine_in self.now)) (state_of (machine_in self.now)) (Home.Frame word) }
    {
        match self.machine.register(2).checked_add(8 * word as u64) {
            Some(at) => self.machine.stack_word(at),
            None => None,
        }
    }

    // ---- runs

    // The place of the point at which the machine stands, any or a marked one.
    fn place_here(&self, any: bool) -> Option<Place>
        requires running { (state_of self.now.machine).stopped ≡ None }
        ensures { MatchOption result ((f i : ℕ) → IsSpotAt (spots_in self.now) any (state_of self.now.machine) f i → ⊥)
            (λ place. IsSpotAt (spots_in self.now) any (state_of self.now.machine) place.func place.item) }
    {
        let pc = self.machine.pc();
        if pc % 4 != 0 {
            return None;
        }
        match self.spots.by_word.get((pc / 4) as usize) {
            Some(Some(spot)) if any || spot.marked => Some(Place {
                func: spot.func,
                item: spot.item,
            }),
            _ => None,
        }
    }

    // That place, where the machine hasn't stopped there.
    fn next_here(&self, any: bool) -> Option<Place>
        requires running { (state_of self.now.machine).stopped ≡ None }
        ensures { MatchOption result (NoneIsNext self.now any) (λ place. IsNext self.now any place.func place.item) }
    {
        if self.left {
            return None;
        }
        self.place_here(any)
    }

    // Stops at a point.
    fn stop_at(&mut self, place: Place) -> Stop
        ensures value { result ≡ Stop.Break place.func place.item }
        ensures machine { machine_in self.new ≡ machine_in self.old }
        ensures spots { spots_in self.new ≡ spots_in self.old }
        ensures left { is_left self.new ≡ true }
        ensures stop { StopSo result self.new }
    {
        self.left = true;
        self.stop = Some((self.machine.pc() / 4) as usize);
        Stop::Break {
            func: place.func,
            item: place.item,
        }
    }

    fn advance<S: Sink>(&mut self, words: u64, any: bool, out: &mut S) -> Stop
        ensures went { Went (IsSpotAt (spots_in self.old) any) result (from_in self.old) words (machine_in self.old) (machine_in self.new) (S.seen out.old) (S.seen out.new) }
        ensures spots { spots_in self.new ≡ spots_in self.old }
        ensures left { LeftSo result words (is_left self.old) (is_left self.new) }
        ensures stop { StopSo result self.new }
    {
        self.stop = None;
        match self.machine.run(0, out) {
            RunAnswer::Spent => {}
            RunAnswer::End(end) => return Stop::End(end),
            RunAnswer::WriteFault => return Stop::WriteFault,
            RunAnswer::Trap(trap) => return Stop::Trap(trap),
        }
        let mut taken = 0;
        while taken < words {
            match self.next_here(any) {
                Some(place) => return self.stop_at(place),
                None => {}
            }
            match self.machine.step(out) {
                MachAnswer::Go => {}
                MachAnswer::End(end) => return Stop::End(end),
                MachAnswer::WriteFault => return Stop::WriteFault,
                MachAnswer::Trap(trap) => return Stop::Trap(trap),
            }
            self.left = false;
            taken += 1;
        }
        match self.next_here(any) {
            Some(place) => self.stop_at(place),
            None => Stop::Spent,
        }
    }
}
