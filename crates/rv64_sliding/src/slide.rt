// The live blocks slide to the front of the cells.

ghost use Rattle.std.specs.Prelude.{◌≡◌, ◌≢◌, ◌+◌, ◌*◌, ◌^◌, ◌<◌, ◌≤◌};
ghost use Rattle.rv64_words.specs.Region.{most_blocks, table_words};
ghost use Rattle.rv64_words.specs.Environment.{live_cells, slid_cells, slid_table};
ghost use Rattle.rv64_sliding.specs.Order.{IsMovable, IsOrdered, IsTight, cells_moved, table_moved};
ghost use Rattle.rv64_processor.specs.RegionView.{words_in, size_in};

use rv64_processor::region::Region;
use rv64_words::region::CELLS_BASE;

// Moves a block, where it is live, to a cell that isn't after its first one, and answers the first cell after it.
fn slide_block(table: &mut Region, cells: &mut Region, number: usize, to: u64) -> u64
    requires number { 2 * number + 1 < size_in table.old }
    requires movable { words_in table.old (2 * number + 1) ≢ 0 → IsMovable (words_in table.old) number to (size_in cells.old) }
    requires inside { 2 * to ≤ size_in cells.old }
    requires few_cells { size_in cells.old ≤ 2 ^ 24 }
    ensures table { words_in table.new ≡ table_moved (words_in table.old) number to }
    ensures cells { words_in cells.new ≡ cells_moved (words_in table.old) (words_in cells.old) number to }
    ensures next { result ≡ to + words_in table.old (2 * number + 1) }
    ensures sizes { (size_in table.new ≡ size_in table.old) × (size_in cells.new ≡ size_in cells.old) }
{
    let size = table.read(2 * number + 1);
    if size == 0 {
        return to;
    }
    let first = (table.read(2 * number) - CELLS_BASE) / 16;
    if first == to {
        return to + size;
    }
    cells.move_down(2 * first as usize, 2 * to as usize, 2 * size as usize);
    table.write(2 * number, CELLS_BASE + 16 * to);
    to + size
}

/// Moves the live blocks, in the order of their numbers, to the front of the cells without gaps. Their addresses in the block
/// table become their new ones, and all words of the cells after them become 0. Answers the first cell after them.
///
/// `blocks` is the number of the newest block, `free` the next free cell, and `low` the least number of a block that was freed
/// since the blocks slid last: those before it stay where they are. Takes time that what it moves takes, and a read for each
/// block from `low` on that isn't live. Takes no memory.
pub fn slide(table: &mut Region, cells: &mut Region, blocks: u32, free: u64, low: u32) -> u64
    requires ordered { IsOrdered (words_in table.old) blocks free }
    requires tight { IsTight (words_in table.old) blocks free low }
    requires freed { low ≤ blocks }
    requires few { blocks ≤ most_blocks }
    requires whole { size_in table.old ≡ table_words }
    requires room { 2 * free ≤ size_in cells.old }
    requires few_cells { size_in cells.old ≤ 2 ^ 24 }
    ensures table { words_in table.new ≡ slid_table (words_in table.old) blocks }
    ensures cells { words_in cells.new ≡ slid_cells (words_in table.old) (words_in cells.old) blocks }
    ensures free { result ≡ live_cells (words_in table.old) blocks }
    ensures sizes { (size_in table.new ≡ size_in table.old) × (size_in cells.new ≡ size_in cells.old) }
{
    let mut slid = low as usize - 1;
    let mut to = (table.read(2 * low as usize) - CELLS_BASE) / 16;
    while slid < blocks as usize {
        to = slide_block(table, cells, slid + 1, to);
        slid += 1;
    }
    cells.clear_from(2 * to as usize);
    to
}
