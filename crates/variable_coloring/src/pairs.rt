// Pairs of variables that meet: one is assigned while the other is live.

ghost use Rattle.std.specs.Prelude.{◌≡◌, ◌<◌, ◌≤◌, ◌+◌, ◌*◌, ◌^◌, ◌-◌, ℕ, suc, true, [], None, IfOk, OnOk, is_some, length, slice_index};
ghost use Rattle.std.specs.List.{All, Contains};
ghost use Rattle.bril_tree.specs.Live.{IsLive};
ghost use Rattle.bril_tree.specs.Operand.{Variable};
ghost use Rattle.bril_tree.specs.Shape.{shape_fault_of};
ghost use Rattle.bril_tree.specs.Sites.{AreSitesSound};
ghost use Rattle.flow_graph.specs.Graph.{IsGraphOf};
ghost use Rattle.graph_search.specs.Sets.{has_bit};
ghost use Rattle.variable_coloring.specs.LiveWords.{AreOfItems, HasPoints, TellLive, variable_in};
ghost use Rattle.variable_coloring.specs.Pairs.{AddsPair, AddsPairs, AreDests, AreDone, ArePairs, IsPrepared, LiveBits, pair};

use crate::dests::dests_in;
use crate::live_flow::LiveFlow;
use crate::live_words::LiveWords;
use crate::softs::Softs;
use bril_tree::numbered_function::Func;
use flow_graph::{Access, AccessLists, Graph};
use graph_search::{all_but, number_of_length, one_bit};
use std::alloc::{AllocError, Global};
use variable_renaming::{Related, clashing};

// Pairs of variables, each in the row of the larger one; and for each variable a word whose bit k is set where its pair with variable
// k of a block is there, beside the block's number + 1, for the last block that was looked at.
#[derive(Drop)]
pub(crate) struct Meetings {
    pub list: Vec<Access>,
    pub blocks: Vec<u32>,
    pub words: Vec<u64>,
}

// The smaller of two variables, in the row of the larger one.
pub(crate) fn pair(x: u32, y: u32) -> Access
    ensures { result ≡ pair x y }
{
    if x < y {
        Access {
            item: x,
            location: y,
        }
    } else {
        Access {
            item: y,
            location: x,
        }
    }
}

impl Meetings {
    // No pair yet, of so many variables.
    fn new(alloc: Global, count: usize) -> Result<Meetings, AllocError>
        ensures list { IfOk result (λ meetings. meetings.list.items ≡ []) }
        ensures done { IfOk result (λ meetings. AreDone count meetings.list.items meetings.blocks.items meetings.words.items) }
    {
        Ok(Meetings {
            list: Vec::new(alloc),
            blocks: vec![in alloc; 0u32; count]?,
            words: vec![in alloc; 0u64; count]?,
        })
    }

    // The word whose bits are variables of the block whose pairs with y are there.
    fn done(&self, block: u32, y: u32) -> u64
        requires block { block < 2 ^ 26 }
        requires y { y < length self.now.blocks.items }
        requires done { AreDone (length self.now.blocks.items) self.now.list.items self.now.blocks.items self.now.words.items }
        ensures { (k : ℕ) → has_bit result k ≡ true → Contains self.now.list.items (pair (variable_in block k) y) }
    {
        if self.blocks[y as usize] != block + 1 {
            return 0;
        }
        self.words[y as usize]
    }

    // Adds the pair of variable k of the block and of y.
    fn add(&mut self, block: u32, k: u32, y: u32) -> Result<(), AllocError>
        requires block { block < 2 ^ 26 }
        requires k { k < 64 }
        requires y { y < length self.old.blocks.items }
        requires done { AreDone (length self.old.blocks.items) self.old.list.items self.old.blocks.items self.old.words.items }
        ensures done { OnOk result (AreDone (length self.old.blocks.items) self.new.list.items self.new.blocks.items self.new.words.items) }
        ensures adds { OnOk result (AddsPair (variable_in block k) y self.old.list.items self.new.list.items) }
    {
        let word = self.done(block, y) | one_bit(k);
        self.list.push(pair(64 * block + k, y))?;
        self.blocks[y as usize] = block + 1;
        self.words[y as usize] = word;
        Ok(())
    }

    // Adds the pair of variable k of the block, which is live at the point, and of what the item before the point assigns, where they
    // meet there.
    fn add_at(
        &mut self,
        related: Related<'_>,
        block: u32,
        k: u32,
        point: u32,
    ) -> Result<(), AllocError>
        requires prepared { IsPrepared related.func.now related.graph.now related.marks.now }
        requires block { block < 2 ^ 26 }
        requires k { k < 64 }
        requires point { point < length related.func.now.code + 1 }
        requires live { IsLive related.func.now.code (Variable (variable_in block k)) point }
        requires done { AreDone (length related.func.now.vars) self.old.list.items self.old.blocks.items self.old.words.items }
        ensures done { OnOk result (AreDone (length related.entry.func.now.vars) self.new.list.items self.new.blocks.items self.new.words.items) }
        ensures adds { OnOk result (AddsPairs related.entry.func.now block (λ j p. (j ≡ k) × (p ≡ point)) self.old.list.items self.new.list.items) }
    {
        match clashing(related, 64 * block + k, point) {
            None => Ok(()),
            Some(y) => {
                self.add(block, k, y)?;
                Ok(())
            }
        }
    }

    // The same for each variable of the block whose bit is set.
    fn add_word(
        &mut self,
        related: Related<'_>,
        block: u32,
        word: u64,
        point: u32,
    ) -> Result<(), AllocError>
        requires prepared { IsPrepared related.func.now related.graph.now related.marks.now }
        requires block { block < 2 ^ 26 }
        requires point { point < length related.func.now.code + 1 }
        requires live { LiveBits related.func.now block word point }
        requires done { AreDone (length related.func.now.vars) self.old.list.items self.old.blocks.items self.old.words.items }
        ensures done { OnOk result (AreDone (length related.entry.func.now.vars) self.new.list.items self.new.blocks.items self.new.words.items) }
        ensures adds { OnOk result (AddsPairs related.entry.func.now block (λ k p. (k < 64) × (has_bit word k ≡ true) × (p ≡ point)) self.old.list.items self.new.list.items) }
    {
        let mut left = word;
        while left != 0 {
            let k = left.trailing_zeros();
            self.add_at(related, block, k, point)?;
            left &= all_but(k);
        }
        Ok(())
    }

    // The same, past the pairs that are there.
    fn add_new(
        &mut self,
        related: Related<'_>,
        dests: &[Option<u32>],
        block: u32,
        word: u64,
        point: u32,
    ) -> Result<(), AllocError>
        requires prepared { IsPrepared related.func.now related.graph.now related.marks.now }
        requires dests { AreDests related.func.now.code dests.now }
        requires block { block < 2 ^ 26 }
        requires point { point < length related.func.now.code + 1 }
        requires live { LiveBits related.func.now block word point }
        requires done { AreDone (length related.func.now.vars) self.old.list.items self.old.blocks.items self.old.words.items }
        ensures done { OnOk result (AreDone (length related.entry.func.now.vars) self.new.list.items self.new.blocks.items self.new.words.items) }
        ensures adds { OnOk result (AddsPairs related.entry.func.now block (λ k p. (k < 64) × (has_bit word k ≡ true) × (p ≡ point)) self.old.list.items self.new.list.items) }
    {
        match dests[point as usize] {
            None => Ok(()),
            Some(y) => {
                if y as usize >= self.blocks.len() {
                    return Ok(());
                }
                let left = word & !self.done(block, y);
                self.add_word(related, block, left, point)?;
                Ok(())
            }
        }
    }

    // Adds the pairs of the variables of a block and of what is assigned where they are live.
    fn look_at(
        &mut self,
        alloc: Global,
        related: Related<'_>,
        dests: &[Option<u32>],
        live: &LiveWords,
        softs: &mut Softs,
        block: u32,
    ) -> Result<(), AllocError>
        requires prepared { IsPrepared related.func.now related.graph.now related.marks.now }
        requires dests { AreDests related.func.now.code dests.now }
        requires block { block < 2 ^ 26 }
        requires points { live.now.sets.nodes ≡ length related.func.now.code + 1 }
        requires within { All (λ point. point < length related.func.now.code + 1) live.now.reached.found }
        requires live { TellLive related.func.now.code block live.now.sets.words }
        requires there { HasPoints live.now.sets.words live.now.reached.found }
        requires done { AreDone (length related.func.now.vars) self.old.list.items self.old.blocks.items self.old.words.items }
        ensures done { OnOk result (AreDone (length related.entry.func.now.vars) self.new.list.items self.new.blocks.items self.new.words.items) }
        ensures adds { OnOk result (AddsPairs related.entry.func.now block (λ k p. (k < 64) × IsLive related.entry.func.now.code (Variable (variable_in block k)) p) self.old.list.items self.new.list.items) }
    {
        for point in live.reached.found() {
            let word = live.sets.word(*point);
            softs.add(alloc, block, word, *point)?;
            self.add_new(related, dests, block, word, *point)?;
        }
        Ok(())
    }

    // Adds the pairs of all variables, where there is none yet.
    fn look_at_all(
        &mut self,
        alloc: Global,
        related: Related<'_>,
        dests: &[Option<u32>],
        flow: &LiveFlow,
        softs: &mut Softs,
    ) -> Result<(), AllocError>
        requires prepared { IsPrepared related.func.now related.graph.now related.marks.now }
        requires dests { AreDests related.func.now.code dests.now }
        requires flow { AreOfItems related.func.now.code flow.now.reads.items flow.now.arcs }
        requires long { length related.marks.now ≡ length related.func.now.vars }
        requires list { self.old.list.items ≡ [] }
        requires done { AreDone (length related.func.now.vars) self.old.list.items self.old.blocks.items self.old.words.items }
        ensures { OnOk result (ArePairs related.entry.func.now self.new.list.items) }
    {
        let mut live = LiveWords::new(alloc, flow.arcs.nodes())?;
        for block in 0..related.marks.len() / 64 + 1 {
            live.find(alloc, flow, block as u32)?;
            self.look_at(alloc, related, dests, &live, softs, block as u32)?;
        }
        Ok(())
    }
}

// The pairs of a function's variables that meet, each in the row of the larger variable; those that had better not share a name are
// added to `softs`. A function with 2^32 - 1 pairs or more is taken to need more memory than there is.
pub(crate) fn pairs_in(
    alloc: Global,
    func: &Func,
    graph: &Graph,
    softs: &mut Softs,
) -> Result<AccessLists, AllocError>
    requires shaped { shape_fault_of (is_some func.now.ret) func.now.code ≡ None }
    requires few { length func.now.code < 2 ^ 32 - 1 }
    requires graph { IsGraphOf func.now.code graph.now }
    requires sound { AreSitesSound func.now.code }
    requires variables { length func.now.vars ≤ 2 ^ 32 - 1 }
    ensures { IfOk result (λ pairs. ArePairs func.now pairs.list) }
{
    let count = func.vars.as_slice().len();
    let marks = vec![in alloc; true; count]?;
    let related = Related {
        func,
        graph,
        marks: marks.as_slice(),
    };
    let dests = dests_in(alloc, func, graph)?;
    let flow = LiveFlow::of(alloc, func, graph)?;
    let mut meetings = Meetings::new(alloc, count)?;
    meetings.look_at_all(alloc, related, dests.as_slice(), &flow, softs)?;
    number_of_length(meetings.list.len())?;
    let pairs = AccessLists::of(alloc, meetings.list)?;
    Ok(pairs)
}
