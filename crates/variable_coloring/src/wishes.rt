// What the choice of a class goes by beside what it must keep: no contract speaks of it.

use crate::loops::number_at;
use bril_tree::numbered_function::Func;
use flow_graph::{Access, AccessLists};
use graph_search::{is_marked, number_of_length};
use std::alloc::{AllocError, Global};
use variable_renaming::{class_of, mark};

// Variables are many where there are more of them than registers that keep them.
const MANY: usize = 23;

// The number that stands for a `speculate`, in place of a variable.
pub(crate) const SITE: u32 = u32::MAX;

// Pairs of variables that had better not share a name, each in the rows of both; marks of variables: of those that a `speculate`
// saves, and of those that are live at one; and how often items in loops access each.
#[derive(Drop)]
pub(crate) struct Gathered {
    pairs: Vec<Access>,
    saved: Vec<bool>,
    awake: Vec<bool>,
    accesses: Vec<u32>,
}

// The same for the choice, by the heads of classes: whether a variable of the class is saved at a `speculate`, and whether another
// one is live at one, which would be saved too if they had one name; how often items in loops access any; and a stamp: turn + 1
// where a variable of the class and the one whose turn it is are a pair.
#[derive(Drop)]
pub(crate) struct Wishes {
    pairs: AccessLists,
    saved: Vec<bool>,
    awake: Vec<bool>,
    accesses: Vec<u32>,
    stamps: Vec<u32>,
}

// Adds each of the variables to the row of the other.
pub(crate) fn push_both(list: &mut Vec<Access>, x: u32, y: u32) -> Result<(), AllocError> {
    list.push(Access {
        item: x,
        location: y,
    })?;
    list.push(Access {
        item: y,
        location: x,
    })?;
    Ok(())
}

// Unmarks those that are marked in the other list.
fn unmark(marks: &mut Vec<bool>, others: &[bool]) {
    for k in 0..marks.len() {
        marks[k] = marks[k] && !is_marked(others, k);
    }
}

// Whether the one is marked in the first list, and the other one in the second.
fn are_marked(first: &[bool], second: &[bool], x: u32, y: u32) -> bool {
    is_marked(first, x as usize) && is_marked(second, y as usize)
}

impl Gathered {
    // No pair yet, of variables that items in loops access so often.
    pub(crate) fn new(alloc: Global, accesses: Vec<u32>) -> Result<Gathered, AllocError> {
        let count = accesses.len();
        Ok(Gathered {
            pairs: Vec::new(alloc),
            saved: vec![in alloc; false; count]?,
            awake: vec![in alloc; false; count]?,
            accesses,
        })
    }

    // How many pairs there are.
    pub(crate) fn len(&self) -> usize {
        self.pairs.len() / 2
    }

    // Adds that x is live where a guard leads before which y is assigned, or, where y is `SITE`, at a `speculate`.
    pub(crate) fn push(&mut self, x: u32, y: u32) -> Result<(), AllocError> {
        if y == SITE {
            mark(&mut self.awake, x);
        } else if x == y {
            mark(&mut self.saved, x);
        } else {
            push_both(&mut self.pairs, x, y)?;
        }
        Ok(())
    }
}

impl Wishes {
    // By what was gathered. A function with 2^31 - 1 pairs or more is taken to need more memory than there is.
    pub(crate) fn of(alloc: Global, gathered: Gathered) -> Result<Wishes, AllocError> {
        let Gathered {
            pairs,
            saved,
            mut awake,
            accesses,
        } = gathered;
        unmark(&mut awake, saved.as_slice());
        number_of_length(pairs.len())?;
        let count = saved.len();
        Ok(Wishes {
            pairs: AccessLists::of(alloc, pairs)?,
            saved,
            awake,
            accesses,
            stamps: vec![in alloc; 0u32; count]?,
        })
    }

    // Stamps the classes of the variables that had better not share a name with x, in its turn.
    pub(crate) fn look_at(
        &mut self,
        alloc: Global,
        class: &[u32],
        x: u32,
        turn: u32,
    ) -> Result<(), AllocError> {
        for y in self.pairs.items(alloc, x)?.as_slice() {
            let head = class_of(class, *y) as usize;
            if head < self.stamps.len() {
                self.stamps[head] = turn.saturating_add(1);
            }
        }
        Ok(())
    }

    // Whether more would be saved at a `speculate` if x, in its turn, and the class shared a name.
    pub(crate) fn is_costly(&self, x: u32, turn: u32, head: u32) -> bool {
        if let Some(stamp) = self.stamps.get(head as usize) {
            if *stamp == turn.saturating_add(1) {
                return true;
            }
        }
        let saved = self.saved.as_slice();
        let awake = self.awake.as_slice();
        are_marked(saved, awake, x, head) || are_marked(saved, awake, head, x)
    }

    // Whether the class is left to x only where no other fits: one that would cost a save; and where variables are many, so that
    // they compete for registers, that of an argument, which is live from the start.
    pub(crate) fn is_last_choice(&self, func: &Func, x: u32, turn: u32, head: u32) -> bool {
        if head < func.args && self.stamps.len() > MANY {
            return true;
        }
        self.is_costly(x, turn, head)
    }

    // Whether the first class is the better one, where variables are many: a class that grows has a longer life, for which a
    // register is rather wanting, and items in loops access this one less often.
    pub(crate) fn is_better(&self, first: u32, second: u32) -> bool {
        let accesses = self.accesses.as_slice();
        self.stamps.len() > MANY && number_at(accesses, first) < number_at(accesses, second)
    }

    // Puts x into the class.
    pub(crate) fn join(&mut self, x: u32, head: u32) {
        let accesses = number_at(self.accesses.as_slice(), x);
        if (head as usize) < self.accesses.len() {
            self.accesses[head as usize] = self.accesses[head as usize].saturating_add(accesses);
        }
        if is_marked(self.saved.as_slice(), x as usize) {
            mark(&mut self.saved, head);
        }
        if is_marked(self.awake.as_slice(), x as usize) {
            mark(&mut self.awake, head);
        }
    }
}
