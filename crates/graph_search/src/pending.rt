// The nodes that a search has yet to look at.

ghost use Rattle.std.specs.Prelude.{◌≡◌, ◌<◌, ◌≤◌, ◌+◌, ℕ, Bool, true, false, length, set, IfOk, OnOk, MatchOption};
ghost use Rattle.graph_search.specs.Sets.{is_pending};

use std::alloc::{AllocError, Global};
use std::marker::Model;

// Nodes, each at most once, with a mark for each that is there. The last that was added is taken first.
#[derive(Drop)]
pub(crate) struct Pending {
    marks: Vec<bool>,
    stack: Vec<u32>,
}

impl Model for Pending {
    ghost use Rattle.std.specs.Prelude.{length};
    ghost use Rattle.graph_search.specs.Sets.{PendingView, ArePending};

    ghost Value = { PendingView };

    ghost view = { λ p. record { marks = p.marks.items; left = length p.stack.items } };

    ghost invariant = { λ p. ArePending p.marks.items p.stack.items };
}

impl Pending {
    // None of so many nodes.
    pub fn new(alloc: Global, nodes: usize) -> Result<Pending, AllocError>
        ensures nodes { IfOk result (λ pending. length pending.marks ≡ nodes) }
    {
        Ok(Pending {
            marks: vec![in alloc; false; nodes]?,
            stack: Vec::new(alloc),
        })
    }

    // Adds the node, unless it is there.
    pub fn add(&mut self, node: u32) -> Result<(), AllocError>
        requires { node < length self.old.marks }
        ensures nodes { length self.new.marks ≡ length self.old.marks }
        ensures marks { OnOk result (self.new.marks ≡ set self.old.marks node true) }
        ensures left { OnOk result (self.new.left ≤ self.old.left + 1) }
    {
        if self.marks[node as usize] {
            return Ok(());
        }
        self.stack.push(node)?;
        self.marks[node as usize] = true;
        Ok(())
    }

    // Takes a node out; None where there is none.
    pub fn take(&mut self) -> Option<u32>
        ensures nodes { length self.new.marks ≡ length self.old.marks }
        ensures taken { MatchOption result
            ((self.new.marks ≡ self.old.marks) × ((node : ℕ) → is_pending self.old.marks node ≡ false))
            (λ node. (node < length self.old.marks) × (self.new.marks ≡ set self.old.marks node false) × (self.new.left + 1 ≡ self.old.left)) }
    {
        match self.stack.pop() {
            None => None,
            Some(node) => {
                self.marks[node as usize] = false;
                Some(node)
            }
        }
    }

    // Takes all nodes out.
    pub fn clear(&mut self)
        ensures nodes { length self.new.marks ≡ length self.old.marks }
        ensures none { (node : ℕ) → is_pending self.new.marks node ≡ false }
    {
        while self.take().is_some() {}
    }
}
