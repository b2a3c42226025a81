// The blocks of memory.

ghost use Rattle.std.specs.Prelude.{◌≡◌, ◌++◌, ◌∷◌, [], length, suc, count_by, if◌then◌else◌, not, ◌==◌, false, None, Some, IfOk, IfErr, OnOk, OnErr};

use crate::block::{cell_place, live_place, push_empty};
use crate::fault::HeapFault;
use crate::stored_block::StoredBlock;
use bril_tree::limits::Fault;
use bril_tree::value::Value;
use std::alloc::Global;
use std::marker::Model;

// The most blocks that are ever taken.
const MOST_BLOCKS: usize = 262144;

/// Blocks of memory, as Bril's memory extension has them. They are numbered 1, 2, 3 and so on in the order in which
/// they were taken. A block that is freed gives its memory back, and its cells count no longer.
#[derive(Drop)]
pub struct Cells {
    limit: u32,
    in_use: u32,
    live: u32,
    blocks: Vec<StoredBlock>,
}

impl Model for Cells {
    ghost use Rattle.bril_heap.specs.Heap.{CellsView, IsHeap};

    ghost Value = { CellsView };

    ghost view = { λ c. record { limit = c.limit; blocks = c.blocks.items } };

    ghost invariant = { λ c. IsHeap c.limit c.in_use c.live c.blocks.items };
}

impl Cells {
    ghost use Rattle.bril_tree.specs.Memory.{allocation_fault, cells_of, new_block, ended_block, live_block, is_freeable, changed_block, cell_at, is_live_any};
    ghost use Rattle.bril_tree.specs.declared.value.Value.TheVariants.{Ptr};
    ghost use Rattle.bril_heap.specs.Heap.{blocks_of, IsRefusal, load_answer, Stores};

    /// No blocks; at most `limit` cells will be live. Takes no memory: that of the blocks will be `alloc`'s.
    pub fn new(alloc: Global, limit: u32) -> Cells
        ensures limit { result.limit ≡ limit }
        ensures blocks { blocks_of result ≡ [] }
    {
        Cells {
            limit,
            in_use: 0,
            live: 0,
            blocks: Vec::new(alloc),
        }
    }

    /// Makes a block of `count` cells that hold nothing, and answers its number.
    ///
    /// `BadAlloc` comes exactly where the count is below 1; else `Allocs` exactly where 262,144 blocks were taken
    /// before; else `Cells` exactly where the count, added to the cells of all live blocks, passes the limit. `Memory`:
    /// memory was wanting. Nothing changes after an error.
    pub fn take(&mut self, count: i64) -> Result<u32, HeapFault>
        ensures limit { self.new.limit ≡ self.old.limit }
        ensures number { IfOk result (λ number. number ≡ suc (length (blocks_of self.old))) }
        ensures blocks { IfOk result (λ _. blocks_of self.new ≡ blocks_of self.old ++ new_block (cells_of count) ∷ []) }

        // When each comes.
        ensures allowed { IfOk result (λ _. allocation_fault self.old.limit (blocks_of self.old) count ≡ None) }
        ensures refused { IfErr result (λ why. IsRefusal why (allocation_fault self.old.limit (blocks_of self.old) count)) }
        ensures err { OnErr result (self.new ≡ self.old) }
    {
        if count < 1 {
            return Err(HeapFault::BadAlloc);
        }
        if self.blocks.len() >= MOST_BLOCKS {
            return Err(HeapFault::Allocs);
        }
        if count > (self.limit - self.in_use) as i64 {
            return Err(HeapFault::Cells);
        }
        push_empty(&mut self.blocks, count as usize)?;
        self.in_use += count as u32;
        self.live += 1;
        Ok(self.blocks.len() as u32)
    }

    /// Ends the block of that number. Takes no memory. False exactly where the offset isn't 0 or no live block has the
    /// number, and then nothing changes.
    pub fn free(&mut self, block: u32, offset: i32) -> bool
        ensures limit { self.new.limit ≡ self.old.limit }
        ensures answer { result ≡ is_freeable (live_block (blocks_of self.old) block) offset }
        ensures blocks { blocks_of self.new ≡ (if result then changed_block (blocks_of self.old) block (λ b. ended_block) else blocks_of self.old) }
    {
        if offset != 0 {
            return false;
        }
        match live_place(&self.blocks, block) {
            None => false,
            Some(place) => {
                self.in_use -= self.blocks[place].size() as u32;
                self.blocks[place].end();
                self.live -= 1;
                true
            }
        }
    }

    /// What the cell at an offset of a block holds. Takes no memory. `Access` comes exactly where no live block has the
    /// number or the offset lies outside it; else `Uninit` exactly where the cell was never stored.
    pub fn load(&self, block: u32, offset: i32) -> Result<Value, Fault>
        ensures { result ≡ load_answer (blocks_of self.now) (Ptr block offset) (cell_at (blocks_of self.now) (Ptr block offset)) }
    {
        match cell_place(&self.blocks, block, offset) {
            None => Err(Fault::Access),
            Some((place, cell)) => match self.blocks[place].entry(cell) {
                None => Err(Fault::Uninit),
                Some(value) => Ok(value),
            },
        }
    }

    /// Stores a value in the cell at an offset of a block. Takes no memory. `Access`, the one fault, comes exactly
    /// where no live block has the number or the offset lies outside it, and then nothing changes.
    pub fn store(&mut self, block: u32, offset: i32, value: Value) -> Result<(), Fault>
        ensures limit { self.new.limit ≡ self.old.limit }
        ensures stored { Stores result (blocks_of self.old) (Ptr block offset) (cell_at (blocks_of self.old) (Ptr block offset)) value (blocks_of self.new) }
    {
        match cell_place(&self.blocks, block, offset) {
            None => Err(Fault::Access),
            Some((place, cell)) => {
                self.blocks[place].put(cell, value);
                Ok(())
            }
        }
    }

    /// How many blocks are live. Takes no memory.
    pub fn live(&self) -> u32
        ensures counted { result ≡ count_by (λ b. b.is_live) (blocks_of self.now) }
        ensures any { is_live_any (blocks_of self.now) ≡ not (result == 0) }
    {
        self.live
    }
}
