// Where blocks and cells are found.

ghost use Rattle.std.specs.Prelude.{◌≡◌, ◌++◌, ◌∷◌, [], None, true, replicate, MatchOption, OnOk, OnErr};
ghost use Rattle.bril_tree.specs.Memory.{live_block, cell_at};
ghost use Rattle.bril_tree.specs.declared.value.Value.TheVariants.{Ptr};
ghost use Rattle.bril_heap.specs.Stored.{seen, IsLiveAt, IsCellAt};

use crate::stored_block::StoredBlock;
use std::alloc::AllocError;

// Appends a live block of so many cells that hold nothing. Fails only for want of memory, and then changes nothing.
pub fn push_empty(blocks: &mut Vec<StoredBlock>, size: usize) -> Result<(), AllocError>
    ensures ok { OnOk result (blocks.new.items ≡ blocks.old.items ++ record { is_live = true; cells = replicate size None } ∷ []) }
    ensures err { OnErr result (blocks.new.items ≡ blocks.old.items) }
{
    let block = StoredBlock::empty(*blocks.allocator(), size)?;
    blocks.push(block)?;
    Ok(())
}

// The place of the live block of a number, which counts from 1.
pub fn live_place(blocks: &[StoredBlock], block: u32) -> Option<usize>
    ensures { MatchOption result (live_block (seen blocks.now) block ≡ None) (λ place. IsLiveAt blocks.now block place) }
{
    if block == 0 {
        return None;
    }
    let place = block as usize - 1;
    if place >= blocks.len() {
        return None;
    }
    if blocks[place].is_live() {
        Some(place)
    } else {
        None
    }
}

// The place of the live block of a number, and the cell in it at an offset.
pub fn cell_place(blocks: &[StoredBlock], block: u32, offset: i32) -> Option<(usize, usize)>
    ensures { MatchOption result (cell_at (seen blocks.now) (Ptr block offset) ≡ None) (λ at. IsCellAt blocks.now block offset at.0 at.1) }
{
    let place = live_place(blocks, block)?;
    if offset < 0 {
        return None;
    }
    let cell = offset as usize;
    if cell < blocks[place].size() {
        Some((place, cell))
    } else {
        None
    }
}
