// One block of memory, as it is kept.

ghost use Rattle.std.specs.Prelude.{◌≡◌, ◌<◌, [], length, replicate, slice_set, true, false, None, Some, IfOk};
ghost use Rattle.bril_tree.specs.declared.value.Value.TheVariants.{Bool};

use crate::stored_cell::{Kind, letter_of, pointer_of, pointer_word, truth_kind};
use bril_tree::value::Value;
use std::alloc::{AllocError, Global};
use std::marker::Model;

// A block: whether it is live, and of each of its cells the kind and the word, which are as many; none once it is ended. A cell
// takes 9 bytes, and a bool is stored by writing one of them: the word stays as it was.
#[derive(Drop)]
pub struct StoredBlock {
    is_live: bool,
    kinds: Vec<Kind>,
    words: Vec<u64>,
}

impl Model for StoredBlock {
    ghost use Rattle.std.specs.List.{AllZip};
    ghost use Rattle.bril_heap.specs.Heap.{BlockView};
    ghost use Rattle.bril_heap.specs.Stored.{cells_held, IsFit};

    ghost Value = { BlockView };

    ghost view = { λ b. record { is_live = b.is_live; cells = cells_held b.kinds.items b.words.items } };

    ghost invariant = { λ b. AllZip IsFit b.kinds.items b.words.items };
}

impl StoredBlock {
    ghost use Rattle.bril_heap.specs.Heap.{entries_of};
    ghost use Rattle.bril_heap.specs.Stored.{cell_held, IsFit};

    // A live block of so many cells that hold nothing. Fails only for want of memory.
    pub fn empty(alloc: Global, size: usize) -> Result<StoredBlock, AllocError>
        ensures { IfOk result (λ made. made ≡ record { is_live = true; cells = replicate size None }) }
    {
        let kinds = vec![in alloc; Kind::Never; size]?;
        let words = vec![in alloc; 0; size]?;
        Ok(StoredBlock {
            is_live: true,
            kinds,
            words,
        })
    }

    pub fn is_live(&self) -> bool
        ensures { result ≡ self.now.is_live }
    {
        self.is_live
    }

    // How many cells it has.
    pub fn size(&self) -> usize
        ensures { result ≡ length self.now.cells }
    {
        self.kinds.len()
    }

    // Ends the block, and gives back the memory of its cells.
    pub fn end(&mut self)
        ensures { self.new ≡ record { is_live = false; cells = [] } }
    {
        self.is_live = false;
        self.kinds = Vec::new(*self.kinds.allocator());
        self.words = Vec::new(*self.words.allocator());
    }

    // What a cell holds, where it was stored.
    pub fn entry(&self, cell: usize) -> Option<Value>
        requires { cell < length self.now.cells }
        ensures { result ≡ entries_of self.now.cells cell }
    {
        match self.kinds[cell] {
            Kind::Never => None,
            Kind::False => Some(Value::Bool(false)),
            Kind::True => Some(Value::Bool(true)),
            Kind::Int => Some(Value::Int(self.words[cell].cast_signed())),
            Kind::Char => Some(Value::Char(letter_of(self.words[cell]))),
            Kind::Ptr => Some(pointer_of(self.words[cell])),
        }
    }

    // The cell gets the value.
    pub fn put(&mut self, cell: usize, value: Value)
        requires { cell < length self.old.cells }
        ensures { self.new ≡ record self.old { cells = slice_set self.old.cells cell (Some value) } }
    {
        match value {
            Value::Int(number) => self.set_word(cell, Kind::Int, number.cast_unsigned()),
            Value::Bool(truth) => self.set_truth(cell, truth),
            Value::Char(letter) => self.set_word(cell, Kind::Char, letter as u64),
            Value::Ptr { block, offset } => {
                self.set_word(cell, Kind::Ptr, pointer_word(block, offset));
            }
        }
    }

    // The cell gets a bool.
    fn set_truth(&mut self, cell: usize, truth: bool)
        requires { cell < length self.old.cells }
        ensures { self.new ≡ record self.old { cells = slice_set self.old.cells cell (Some (Bool truth)) } }
    {
        self.kinds[cell] = truth_kind(truth);
    }

    // The cell gets a kind and a word.
    fn set_word(&mut self, cell: usize, kind: Kind, word: u64)
        requires inside { cell < length self.old.cells }
        requires fits { IsFit kind word }
        ensures { self.new ≡ record self.old { cells = slice_set self.old.cells cell (cell_held kind word) } }
    {
        self.kinds[cell] = kind;
        self.words[cell] = word;
    }
}
