// The loop over trivial `get`s.

ghost use Rattle.std.specs.Prelude.{◌≡◌, ◌≢◌, ◌⊎◌, ◌<◌, ◌≤◌, ◌+◌, ◌-◌, ◌^◌, ◌↔◌, ℕ, true, false, IsTrue, IfOk, OnOk, Some, None, Ok, length, map, slice_index, slice_index_or, slice_set, MatchResult};
ghost use Rattle.std.specs.List.{All, Contains};
ghost use Rattle.ssa_build.specs.trivial_phis.Classes.{SameClasses, count_of, find_in};
ghost use Rattle.graph_search.specs.Adjacency.{EndsRow};
ghost use Rattle.ssa_build.specs.trivial_phis.Trivial.{Differs, IsResolved, IsWork, Passes, Sets, Stays, Tells, keys_of, sources_of, standing};

use crate::trivial_phis::classes::{Classes, numbers};
use crate::trivial_phis::operands::Operands;
use std::alloc::{AllocError, Global};
use std::mem;

// How far the operands of each `get` were looked at, and which `get`s look at what.
#[derive(Drop)]
struct Work {
    classes: Classes,
    gone: Vec<bool>,
    ends: Vec<u32>,
    firsts: Vec<Option<u32>>,
    watchers: Vec<Vec<u32>>,
}

// What is known of a `get` once its operands were looked at.
#[derive(Clone, Copy, Drop)]
enum Look {
    // it stays
    Stays,
    // all its operands stand for it or for this definition
    Trivial(u32),
}

/// For each definition, by its number, the one that stands for it once the trivial `get`s are left out, one after another,
/// until none is left. The definitions below `base` are arguments and items, and stand for themselves; `get` number `t` is
/// the definition `base + t`. So a `get` stays exactly where it stands for itself.
///
/// Takes time in proportion to the operands, but for the looks that joined classes ask for again. Fails where memory is
/// lacking.
pub fn representatives(
    alloc: Global,
    operands: &Operands,
    base: u32,
) -> Result<Vec<u32>, AllocError>
    requires few { base + operands.now.gets < 2 ^ 32 }
    requires within { All (λ from. from < base + operands.now.gets) (sources_of operands.now) }
    ensures long { IfOk result (λ find. length find.items ≡ base + operands.now.gets) }
    ensures resolved { IfOk result (λ find. IsResolved operands.now base (λ d. slice_index find.items d)) }
{
    let mut work = Work::new(alloc, operands, base)?;
    let mut todo = numbers(alloc, operands.gets() as u32)?;
    let mut full = true;
    loop {
        let mut again = Vec::new(alloc);
        let joined = work.round(alloc, operands, base, todo.as_slice(), &mut again)?;
        if joined {
            todo = again;
            full = false;
        } else if full {
            break;
        } else {
            todo = numbers(alloc, operands.gets() as u32)?;
            full = true;
        }
    }
    let find = work.finds(alloc)?;
    Ok(find)
}

// So many empty lists.
fn empty_lists(alloc: Global, count: usize) -> Result<Vec<Vec<u32>>, AllocError>
    ensures { IfOk result (λ lists. length lists.items ≡ count) }
{
    let mut lists = Vec::new(alloc);
    for _ in 0..count {
        lists.push(Vec::new(alloc))?;
    }
    Ok(lists)
}

// So many marks, none of which is set.
fn marks(alloc: Global, count: usize) -> Result<Vec<bool>, AllocError>
    ensures long { IfOk result (λ marks. length marks.items ≡ count) }
    ensures unset { IfOk result (λ marks. (t : ℕ) → slice_index_or marks.items t false ≡ false) }
{
    let mut marks = Vec::new(alloc);
    for _ in 0..count {
        marks.push(false)?;
    }
    Ok(marks)
}

// No first operand for any of so many `get`s.
fn no_firsts(alloc: Global, count: usize) -> Result<Vec<Option<u32>>, AllocError>
    ensures long { IfOk result (λ firsts. length firsts.items ≡ count) }
    ensures unset { IfOk result (λ firsts. (t : ℕ) → slice_index_or firsts.items t None ≡ None) }
{
    let mut firsts = Vec::new(alloc);
    for _ in 0..count {
        firsts.push(None)?;
    }
    Ok(firsts)
}

// The ends of the operands of all `get`s.
fn all_ends(alloc: Global, operands: &Operands) -> Result<Vec<u32>, AllocError>
    requires { operands.now.gets < 2 ^ 32 }
    ensures long { IfOk result (λ ends. length ends.items ≡ operands.now.gets) }
    ensures ends { IfOk result (λ ends. (t : ℕ) → t < operands.now.gets → EndsRow (keys_of operands.now) t (length operands.now.list) (slice_index ends.items t)) }
{
    let mut ends = Vec::new(alloc);
    for get in 0..operands.gets() as u32 {
        ends.push(operands.end(get))?;
    }
    Ok(ends)
}

impl Work {
    // Nothing was looked at, and each definition stands for itself.
    fn new(alloc: Global, operands: &Operands, base: u32) -> Result<Work, AllocError>
        requires few { base + operands.now.gets < 2 ^ 32 }
        requires within { All (λ from. from < base + operands.now.gets) (sources_of operands.now) }
        ensures { IfOk result (λ work. IsWork operands.now base work.classes work.gone.items work.ends.items work.firsts.items) }
    {
        let gets = operands.gets();
        let count = base + gets as u32;
        Ok(Work {
            classes: Classes::new(alloc, count)?,
            gone: marks(alloc, gets)?,
            ends: all_ends(alloc, operands)?,
            firsts: no_firsts(alloc, gets)?,
            watchers: empty_lists(alloc, count as usize)?,
        })
    }

    // Whether an operand stands for the `get`, or for what its first operand stands for, which may become this one.
    fn passes(&mut self, y: u32, first: &mut Option<u32>, from: u32) -> bool
        requires from { from < count_of self.old.classes }
        requires first { (w : ℕ) → first.old ≡ Some w → w < count_of self.old.classes }
        ensures same { SameClasses self.old.classes self.new.classes }
        ensures rest { (self.new.gone.items ≡ self.old.gone.items) × (self.new.ends.items ≡ self.old.ends.items) × (self.new.firsts.items ≡ self.old.firsts.items) }
        ensures passes { result ≡ true → Passes (find_in self.old.classes) y from first.old first.new }
        ensures stops { result ≡ false → Differs (find_in self.old.classes) y from first.old × (first.new ≡ first.old) }
    {
        let found = self.classes.find(from);
        if found == y {
            return true;
        }
        match *first {
            None => {
                *first = Some(from);
                true
            }
            Some(other) => {
                let stands = self.classes.find(other);
                if stands == y {
                    *first = Some(from);
                    return true;
                }
                stands == found
            }
        }
    }

    // Looks at the operands of a `get` that stands, from where the last look stopped.
    fn look(&mut self, operands: &Operands, base: u32, get: u32) -> Look
        requires get { get < operands.now.gets }
        requires few { base + operands.now.gets < 2 ^ 32 }
        requires within { All (λ from. from < base + operands.now.gets) (sources_of operands.now) }
        requires work { IsWork operands.now base self.old.classes self.old.gone.items self.old.ends.items self.old.firsts.items }
        requires stands { slice_index_or self.old.gone.items get false ≡ false }
        ensures same { SameClasses self.old.classes self.new.classes }
        ensures gone { self.new.gone.items ≡ self.old.gone.items }
        ensures work { IsWork operands.now base self.new.classes self.new.gone.items self.new.ends.items self.new.firsts.items }
        ensures look { Tells operands.now base (find_in self.new.classes) get result }
    {
        let y = base + get;
        let mut end = self.ends[get as usize];
        let mut first = self.firsts[get as usize];
        let mut passing = true;
        while passing && end > 0 {
            let place = end - 1;
            passing = self.passes(y, &mut first, operands.from(place));
            if passing {
                end = operands.before(place);
            }
        }
        self.ends[get as usize] = end;
        self.firsts[get as usize] = first;
        if !passing {
            return Look::Stays;
        }
        match first {
            None => Look::Stays,
            Some(other) => {
                let stands = self.classes.find(other);
                if stands == y {
                    Look::Stays
                } else {
                    Look::Trivial(stands)
                }
            }
        }
    }

    // Notes that the `get` looks at the class of a definition.
    fn watch(&mut self, get: u32, d: u32) -> Result<(), AllocError>
        requires d { d < count_of self.old.classes }
        ensures same { SameClasses self.old.classes self.new.classes }
        ensures rest { (self.new.gone.items ≡ self.old.gone.items) × (self.new.ends.items ≡ self.old.ends.items) × (self.new.firsts.items ≡ self.old.firsts.items) }
    {
        let stands = self.classes.find(d) as usize;
        if stands < self.watchers.len() {
            self.watchers[stands].push(get)?;
        }
        Ok(())
    }

    // Notes at what a `get` looks, where that is new: its operands were looked at from this end and this first one on.
    fn watch_news(
        &mut self,
        operands: &Operands,
        get: u32,
        end: u32,
        first: Option<u32>,
    ) -> Result<(), AllocError>
        requires get { (get < length self.old.ends.items) × (get < length self.old.firsts.items) }
        requires first { (w : ℕ) → slice_index_or self.old.firsts.items get None ≡ Some w → w < count_of self.old.classes }
        requires end { slice_index self.old.ends.items get ≤ length operands.now.list }
        requires within { All (λ from. from < count_of self.old.classes) (sources_of operands.now) }
        ensures same { SameClasses self.old.classes self.new.classes }
        ensures rest { (self.new.gone.items ≡ self.old.gone.items) × (self.new.ends.items ≡ self.old.ends.items) × (self.new.firsts.items ≡ self.old.firsts.items) }
    {
        let now = self.firsts[get as usize];
        let second = self.ends[get as usize];
        if let Some(d) = now {
            if first != now {
                self.watch(get, d)?;
            }
        }
        if second > 0 && (second != end || first == None) {
            self.watch(get, operands.from(second - 1))?;
        }
        Ok(())
    }

    // Those that look at the class of y look at that of z now, and are to look again; the shorter list is moved.
    fn hand_on(
        &mut self,
        alloc: Global,
        y: u32,
        z: u32,
        again: &mut Vec<u32>,
    ) -> Result<(), AllocError>
        ensures same { self.new.classes ≡ self.old.classes }
        ensures rest { (self.new.gone.items ≡ self.old.gone.items) × (self.new.ends.items ≡ self.old.ends.items) × (self.new.firsts.items ≡ self.old.firsts.items) }
    {
        let (y, z) = (y as usize, z as usize);
        if y >= self.watchers.len() || z >= self.watchers.len() {
            return Ok(());
        }
        if self.watchers[y].len() > self.watchers[z].len() {
            self.watchers.swap(y, z);
        }
        let moved = mem::replace(&mut self.watchers[y], Vec::new(alloc));
        for get in moved.as_slice() {
            self.watchers[z].push(*get)?;
            again.push(*get)?;
        }
        Ok(())
    }

    // Leaves the `get` out: all its operands stand for it or for z.
    fn leave_out(
        &mut self,
        alloc: Global,
        _operands: &Operands,
        base: u32,
        get: u32,
        z: u32,
        again: &mut Vec<u32>,
    ) -> Result<(), AllocError>
        requires get { get < _operands.now.gets }
        requires few { base + _operands.now.gets < 2 ^ 32 }
        requires within { All (λ from. from < base + _operands.now.gets) (sources_of _operands.now) }
        requires z { z < base + _operands.now.gets }
        requires work { IsWork _operands.now base self.old.classes self.old.gone.items self.old.ends.items self.old.firsts.items }
        requires stands { slice_index_or self.old.gone.items get false ≡ false }
        requires trivial { (z ≢ base + get) × (find_in self.old.classes z ≡ z) × ((d : ℕ) → Sets _operands.now get d → (find_in self.old.classes d ≡ base + get) ⊎ (find_in self.old.classes d ≡ z)) }
        ensures work { OnOk result (IsWork _operands.now base self.new.classes self.new.gone.items self.new.ends.items self.new.firsts.items) }
        ensures less { OnOk result (standing self.new.gone.items < standing self.old.gone.items) }
    {
        self.classes.join(base + get, z);
        self.gone[get as usize] = true;
        self.hand_on(alloc, base + get, z, again)?;
        if z >= base {
            again.push(z - base)?;
        }
        Ok(())
    }

    // Looks at a `get`, and leaves it out where it is trivial; whether it was.
    fn look_at(
        &mut self,
        alloc: Global,
        operands: &Operands,
        base: u32,
        get: u32,
        again: &mut Vec<u32>,
    ) -> Result<bool, AllocError>
        requires get { get < operands.now.gets }
        requires few { base + operands.now.gets < 2 ^ 32 }
        requires within { All (λ from. from < base + operands.now.gets) (sources_of operands.now) }
        requires work { IsWork operands.now base self.old.classes self.old.gone.items self.old.ends.items self.old.firsts.items }
        ensures work { OnOk result (IsWork operands.now base self.new.classes self.new.gone.items self.new.ends.items self.new.firsts.items) }
        ensures joined { result ≡ Ok true → standing self.new.gone.items < standing self.old.gone.items }
        ensures same { result ≡ Ok false → SameClasses self.old.classes self.new.classes × (self.new.gone.items ≡ self.old.gone.items) }
        ensures stays { result ≡ Ok false → slice_index_or self.old.gone.items get false ≡ false → Stays operands.now base (find_in self.new.classes) get }
    {
        if self.gone[get as usize] {
            return Ok(false);
        }
        let end = self.ends[get as usize];
        let first = self.firsts[get as usize];
        match self.look(operands, base, get) {
            Look::Stays => {
                self.watch_news(operands, get, end, first)?;
                Ok(false)
            }
            Look::Trivial(z) => {
                self.leave_out(alloc, operands, base, get, z, again)?;
                Ok(true)
            }
        }
    }

    // Looks at some `get`s; whether any was left out. `again` gets those that are to be looked at then.
    fn round(
        &mut self,
        alloc: Global,
        operands: &Operands,
        base: u32,
        todo: &[u32],
        again: &mut Vec<u32>,
    ) -> Result<bool, AllocError>
        requires few { base + operands.now.gets < 2 ^ 32 }
        requires within { All (λ from. from < base + operands.now.gets) (sources_of operands.now) }
        requires work { IsWork operands.now base self.old.classes self.old.gone.items self.old.ends.items self.old.firsts.items }
        ensures work { OnOk result (IsWork operands.now base self.new.classes self.new.gone.items self.new.ends.items self.new.firsts.items) }
        ensures joined { result ≡ Ok true → standing self.new.gone.items < standing self.old.gone.items }
        ensures same { result ≡ Ok false → self.new.gone.items ≡ self.old.gone.items }
        ensures stay { result ≡ Ok false → (k : ℕ) → k < length todo.now → slice_index todo.now k < operands.now.gets → slice_index_or self.new.gone.items (slice_index todo.now k) false ≡ false
            → Stays operands.now base (find_in self.new.classes) (slice_index todo.now k) }
    {
        let mut joined = false;
        for get in todo {
            if (*get as usize) < operands.gets()
                && self.look_at(alloc, operands, base, *get, again)?
            {
                joined = true;
            }
        }
        Ok(joined)
    }

    // For each definition the one that stands for it.
    fn finds(mut self, alloc: Global) -> Result<Vec<u32>, AllocError>
        requires { count_of self.classes < 2 ^ 32 }
        ensures long { IfOk result (λ find. length find.items ≡ count_of self.classes) }
        ensures find { IfOk result (λ find. (d : ℕ) → d < count_of self.classes → slice_index find.items d ≡ find_in self.classes d) }
    {
        let mut find = Vec::new(alloc);
        for d in 0..self.classes.len() {
            find.push(self.classes.find(d as u32))?;
        }
        Ok(find)
    }
}
