// Bytes that contracts see as a list of numbers below 256.

ghost use Rattle.std.specs.Prelude.{◌≡◌, [], ◌++◌, ℕ, OnOk, OnErr};

use std::alloc::{AllocError, Global};
use std::marker::Model;

/// Bytes, in order.
#[derive(Drop)]
pub struct Bytes {
    held: Vec<u8>,
}

impl Model for Bytes {
    ghost use Rattle.std.specs.Prelude.{List, ℕ};

    ghost Value = { List ℕ };

    ghost view = { λ b. b.held.items };
}

impl Bytes {
    /// No bytes, for those in memory of `alloc`. Takes no memory.
    pub fn new(alloc: Global) -> Bytes
        ensures { result ≡ [] }
    {
        Bytes {
            held: Vec::new(alloc),
        }
    }

    /// No bytes. Takes no memory.
    pub fn fresh(&self) -> Bytes
        ensures { result ≡ [] }
    {
        Bytes::new(*self.held.allocator())
    }

    /// The bytes, first to last. Takes no memory.
    pub fn as_slice(&self) -> &[u8]
        ensures { result.now ≡ self.now }
    {
        self.held.as_slice()
    }

    /// Appends the piece. Where memory is wanting the bytes stay as they were.
    pub fn add(&mut self, piece: &[u8]) -> Result<(), AllocError>
        ensures ok { OnOk result (self.new ≡ self.old ++ piece.now) }
        ensures err { OnErr result (self.new ≡ self.old) }
    {
        self.held.extend_from_slice(piece)
    }
}
