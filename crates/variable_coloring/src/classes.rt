// Classes of variables, which grow by one variable at a time.

ghost use Rattle.std.specs.Prelude.{◌≡◌, ◌&&◌, ◌<◌, ◌≤◌, ◌^◌, ◌-◌, ℕ, suc, true, false, IfOk, IfNone, IfSome, length, slice_index, slice_set};
ghost use Rattle.std.specs.List.{Contains};
ghost use Rattle.graph_search.specs.Marks.{is_marked};
ghost use Rattle.variable_coloring.specs.Growing.{AreColorsOf, FitsIn, MisfitsIn, NoneFitsIn, StampsClasses, shadows_joined};
ghost use Rattle.variable_renaming.specs.Classes.{class_of};

use crate::wishes::Wishes;
use bril_tree::numbered_function::Func;
use graph_search::is_marked;
use std::alloc::{AllocError, Global};
use variable_renaming::{are_of_one_type, class_of, mark, numbers_below, shadowed_variables};

// How many heads are looked at for a better one than the first that fits.
const LOOK: u32 = 64;

// The class of each variable, by its head, which is one of its variables; which variables are placed, so that they have a class;
// for each head whether a variable of its class has a shadow that items name; a stamp for each head: turn + 1 where a variable of
// its class meets the one whose turn it is, for the last turn of any; and what else a choice goes by.
#[derive(Drop)]
pub(crate) struct Classes {
    pub class: Vec<u32>,
    pub placed: Vec<bool>,
    pub shadow: Vec<bool>,
    pub stamps: Vec<u32>,
    wishes: Wishes,
}

impl Classes {
    // No variable is placed.
    pub(crate) fn new(alloc: Global, func: &Func, wishes: Wishes) -> Result<Classes, AllocError>
        requires { length func.now.vars ≤ 2 ^ 32 }
        ensures colors { IfOk result (λ classes. AreColorsOf func.now classes.placed.items classes.class.items classes.shadow.items) }
        ensures long { IfOk result (λ classes. length classes.stamps.items ≡ length func.now.vars) }
        ensures none { IfOk result (λ classes. (k : ℕ) → slice_index classes.stamps.items k ≡ 0) }
        ensures placed { IfOk result (λ classes. (k : ℕ) → is_marked classes.placed.items k ≡ false) }
    {
        let count = func.vars.as_slice().len();
        Ok(Classes {
            class: numbers_below(alloc, count)?,
            placed: vec![in alloc; false; count]?,
            shadow: shadowed_variables(alloc, func)?,
            stamps: vec![in alloc; 0u32; count]?,
            wishes,
        })
    }

    // Whether a variable of the class has a shadow that items name.
    pub(crate) fn is_shadowed(&self, head: u32) -> bool
        ensures { result ≡ is_marked self.now.shadow.items head }
    {
        is_marked(self.shadow.as_slice(), head as usize)
    }

    // Whether the variable is placed.
    pub(crate) fn is_placed(&self, x: u32) -> bool
        ensures { result ≡ is_marked self.now.placed.items x }
    {
        is_marked(self.placed.as_slice(), x as usize)
    }

    // Whether x takes the class in this turn: one that would cost a save only in its second turn, in which it is placed anyway.
    pub(crate) fn takes(&self, x: u32, turn: u32, head: u32) -> bool
        ensures { result ≡ false → turn < length self.now.class.items }
    {
        turn as usize >= self.class.len() || !self.wishes.is_costly(x, turn, head)
    }

    // Stamps the class of y, which meets the variable whose turn it is.
    fn stamp(&mut self, turn: u32, y: u32)
        requires { turn < 2 ^ 32 - 1 }
        ensures class { self.new.class.items ≡ self.old.class.items }
        ensures placed { self.new.placed.items ≡ self.old.placed.items }
        ensures shadow { self.new.shadow.items ≡ self.old.shadow.items }
        ensures stamps { self.new.stamps.items ≡ slice_set self.old.stamps.items (class_of self.old.class.items y) (suc turn) }
    {
        let head = class_of(self.class.as_slice(), y) as usize;
        if head < self.stamps.len() {
            self.stamps[head] = turn + 1;
        }
    }

    // Stamps the classes of these variables, which meet the one whose turn it is.
    pub(crate) fn stamp_all(&mut self, turn: u32, met: &[u32])
        requires { turn < 2 ^ 32 - 1 }
        ensures class { self.new.class.items ≡ self.old.class.items }
        ensures placed { self.new.placed.items ≡ self.old.placed.items }
        ensures shadow { self.new.shadow.items ≡ self.old.shadow.items }
        ensures stamps { StampsClasses turn self.old.class.items met.now self.old.stamps.items self.new.stamps.items }
    {
        for y in met {
            self.stamp(turn, *y);
        }
    }

    // Stamps the classes that had better not be that of x, in its turn.
    pub(crate) fn stamp_wishes(
        &mut self,
        alloc: Global,
        x: u32,
        turn: u32,
    ) -> Result<(), AllocError>
        ensures class { self.new.class.items ≡ self.old.class.items }
        ensures placed { self.new.placed.items ≡ self.old.placed.items }
        ensures shadow { self.new.shadow.items ≡ self.old.shadow.items }
        ensures stamps { self.new.stamps.items ≡ self.old.stamps.items }
    {
        self.wishes.look_at(alloc, self.class.as_slice(), x, turn)?;
        Ok(())
    }

    // Whether both have a shadow that items name, x and a variable of the class.
    fn are_shadowed(&self, x: u32, head: u32) -> bool
        ensures { result ≡ is_marked self.now.shadow.items x && is_marked self.now.shadow.items head }
    {
        self.is_shadowed(x) && self.is_shadowed(head)
    }

    // Whether the number is the head of a class of before.
    fn is_head(&self, head: u32) -> bool
        ensures head { result ≡ true → class_of self.now.class.items head ≡ head }
        ensures placed { result ≡ true → is_marked self.now.placed.items head ≡ true }
        ensures below { result ≡ true → head < length self.now.placed.items }
        ensures other { result ≡ false → is_marked self.now.placed.items head ≡ true → class_of self.now.class.items head ≡ head → ⊥ }
    {
        (head as usize) < self.placed.len()
            && self.placed[head as usize]
            && class_of(self.class.as_slice(), head) == head
    }

    // Whether the number is the head of a class that x may be put into, in its turn.
    fn fits(&self, func: &Func, x: u32, turn: u32, head: u32) -> bool
        requires x { x < length func.now.vars }
        requires few { turn < 2 ^ 32 - 1 }
        requires placed { length self.now.placed.items ≡ length func.now.vars }
        requires stamps { length self.now.stamps.items ≡ length func.now.vars }
        ensures fits { result ≡ true → FitsIn func.now self.now x turn head }
        ensures misfits { result ≡ false → MisfitsIn func.now self.now x turn head }
    {
        if !self.is_head(head) {
            return false;
        }
        if !are_of_one_type(func, x, head) {
            return false;
        }
        if self.stamps[head as usize] == turn + 1 {
            return false;
        }
        !self.are_shadowed(x, head)
    }

    // Whether the class is left to x only where no other fits.
    fn is_last_choice(&self, func: &Func, x: u32, turn: u32, head: u32) -> bool {
        self.wishes.is_last_choice(func, x, turn, head)
    }

    // Whether the number is the head of a class that x may be put into, in its turn: of one that is no last choice, unless any
    // will do, and of a better one than that which was found.
    fn suits(
        &self,
        func: &Func,
        x: u32,
        turn: u32,
        head: u32,
        any: bool,
        found: Option<u32>,
    ) -> bool
        requires x { x < length func.now.vars }
        requires few { turn < 2 ^ 32 - 1 }
        requires placed { length self.now.placed.items ≡ length func.now.vars }
        requires stamps { length self.now.stamps.items ≡ length func.now.vars }
        ensures fits { result ≡ true → FitsIn func.now self.now x turn head }
        ensures misfits { any ≡ true → result ≡ false → IfNone found (MisfitsIn func.now self.now x turn head) }
    {
        if let Some(other) = found {
            if !self.wishes.is_better(head, other) {
                return false;
            }
        }
        (any || !self.is_last_choice(func, x, turn, head)) && self.fits(func, x, turn, head)
    }

    // The place of one of these numbers that is the head of a class that x may be put into, in its turn: of one that is no last
    // choice, unless any will do. Behind the first one it looks at a few more, for a better one.
    pub(crate) fn find(
        &self,
        func: &Func,
        x: u32,
        turn: u32,
        heads: &[u32],
        any: bool,
    ) -> Option<usize>
        requires x { x < length func.now.vars }
        requires few { turn < 2 ^ 32 - 1 }
        requires placed { length self.now.placed.items ≡ length func.now.vars }
        requires stamps { length self.now.stamps.items ≡ length func.now.vars }
        ensures within { IfSome result (λ place. place < length heads.now) }
        ensures fits { IfSome result (λ place. FitsIn func.now self.now x turn (slice_index heads.now place)) }
        ensures none { any ≡ true → IfNone result (NoneFitsIn func.now self.now x turn heads.now) }
    {
        let mut best: Option<usize> = None;
        let mut found: Option<u32> = None;
        let mut more = LOOK;
        for (place, head) in heads.iter().enumerate() {
            if self.suits(func, x, turn, *head, any, found) {
                best = Some(place);
                found = Some(*head);
            }
            if found.is_some() {
                if more == 0 {
                    return best;
                }
                more -= 1;
            }
        }
        best
    }

    // The head of the class of one of these variables, where x may be put into it, in its turn.
    pub(crate) fn find_of(&self, func: &Func, x: u32, turn: u32, variables: &[u32]) -> Option<u32>
        requires x { x < length func.now.vars }
        requires few { turn < 2 ^ 32 - 1 }
        requires placed { length self.now.placed.items ≡ length func.now.vars }
        requires stamps { length self.now.stamps.items ≡ length func.now.vars }
        ensures { IfSome result (FitsIn func.now self.now x turn) }
    {
        for y in variables {
            let head = class_of(self.class.as_slice(), *y);
            if self.fits(func, x, turn, head) {
                return Some(head);
            }
        }
        None
    }

    // Places x in a class of its own.
    pub(crate) fn open(&mut self, x: u32)
        ensures class { self.new.class.items ≡ self.old.class.items }
        ensures placed { self.new.placed.items ≡ slice_set self.old.placed.items x true }
        ensures shadow { self.new.shadow.items ≡ self.old.shadow.items }
        ensures stamps { self.new.stamps.items ≡ self.old.stamps.items }
    {
        mark(&mut self.placed, x);
    }

    // Places x in the class.
    pub(crate) fn join(&mut self, x: u32, head: u32)
        requires { x < length self.old.class.items }
        ensures class { self.new.class.items ≡ slice_set self.old.class.items x head }
        ensures placed { self.new.placed.items ≡ slice_set self.old.placed.items x true }
        ensures shadow { self.new.shadow.items ≡ shadows_joined self.old.shadow.items x head }
        ensures stamps { self.new.stamps.items ≡ self.old.stamps.items }
    {
        self.class[x as usize] = head;
        mark(&mut self.placed, x);
        self.wishes.join(x, head);
        if self.is_shadowed(x) {
            mark(&mut self.shadow, head);
        }
    }
}
