// A region of memory: words that are all 0 at first.

ghost use Rattle.std.specs.Prelude.{◌≡◌, ◌+◌, ◌^◌, ◌<◌, ◌≤◌, IfOk, vec_len, vec_capacity};
ghost use Rattle.rv64_words.specs.State.{assigned};

use std::alloc::{AllocError, Global};

// The most words of a region: the bytes of more have no addresses.
const MOST_WORDS: usize = 1 << 60;

/// So many words. Those up to the last one that was written are held, and the room of the others is reserved: a write never
/// takes memory, and a region that is made takes time for what it is used, not for its size.
#[derive(Drop)]
pub struct Region {
    words: Vec<u64>,
    size: usize,
    ghost fits: { vec_len words ≤ size },
    ghost room: { size ≤ vec_capacity words },
    ghost small: { size ≤ 2 ^ 60 },
}

impl Region {
    ghost use Rattle.rv64_processor.specs.RegionView.{words_in, size_in, written_in, moved_down, first_words};

    /// A region of so many words, all 0. It takes their room.
    pub fn new(alloc: Global, size: usize) -> Result<Region, AllocError>
        ensures size { IfOk result (λ region. size_in region ≡ size) }
        ensures words { IfOk result (λ region. words_in region ≡ (λ _. 0)) }
    {
        if size > MOST_WORDS {
            return Err(AllocError);
        }
        Ok(Region {
            words: Vec::with_capacity(alloc, size)?,
            size,
        })
    }

    /// How many words it has.
    #[inline(always)]
    pub fn size(&self) -> usize
        ensures { result ≡ size_in self.now }
    {
        self.size
    }

    /// What a word holds: 0 where it wasn't written.
    #[inline(always)]
    pub fn read(&self, k: usize) -> u64
        ensures { result ≡ words_in self.now k }
    {
        if k < self.words.len() {
            self.words[k]
        } else {
            0
        }
    }

    /// Writes a word.
    #[inline(always)]
    pub fn write(&mut self, k: usize, value: u64)
        requires { k < size_in self.old }
        ensures words { words_in self.new ≡ assigned (words_in self.old) k value }
        ensures size { size_in self.new ≡ size_in self.old }
    {
        self.fill(k);
        self.words[k] = value;
    }

    /// Holds the words up to this one: those that weren't written are 0.
    pub(crate) fn fill(&mut self, k: usize)
        requires { k < size_in self.old }
        ensures held { k < written_in self.new }
        ensures words { words_in self.new ≡ words_in self.old }
        ensures size { size_in self.new ≡ size_in self.old }
    {
        while self.words.len() <= k {
            let _ = self.words.push(0);
        }
    }

    /// Moves so many words from `from` on to `to`, which isn't after `from`. Takes no memory.
    pub fn move_down(&mut self, from: usize, to: usize, count: usize)
        requires ahead { to ≤ from }
        requires inside { from + count ≤ size_in self.old }
        ensures words { words_in self.new ≡ moved_down (words_in self.old) from to count }
        ensures size { size_in self.new ≡ size_in self.old }
    {
        if count > 0 {
            self.fill(from + count - 1);
            self.words.copy_within(from..from + count, to);
        }
    }

    /// Makes all words from this one on 0: those that are held are cut off, not written.
    pub fn clear_from(&mut self, first: usize)
        ensures words { words_in self.new ≡ first_words (words_in self.old) first }
        ensures size { size_in self.new ≡ size_in self.old }
    {
        self.words.truncate(first);
    }

    // ---- words that are held

    /// How many words are held: those up to the last one that was written.
    #[inline(always)]
    pub(crate) fn written(&self) -> usize
        ensures value { result ≡ written_in self.now }
        ensures fits { result ≤ size_in self.now }
        ensures small { result ≤ 2 ^ 60 }
    {
        self.words.len()
    }

    /// What a word holds.
    #[inline(always)]
    pub(crate) fn read_written(&self, k: usize) -> u64
        requires { k < written_in self.now }
        ensures { result ≡ words_in self.now k }
    {
        self.words[k]
    }

    /// Writes a word.
    #[inline(always)]
    pub(crate) fn write_written(&mut self, k: usize, value: u64)
        requires { k < written_in self.old }
        ensures words { words_in self.new ≡ assigned (words_in self.old) k value }
        ensures size { size_in self.new ≡ size_in self.old }
        ensures written { written_in self.new ≡ written_in self.old }
    {
        self.words[k] = value;
    }
}
