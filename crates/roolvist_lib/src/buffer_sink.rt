// A sink for a buffer of the caller's.

ghost use Rattle.std.specs.Prelude.{ℕ, ◌≡◌, ◌≤◌, ◌<◌, ◌+◌, ◌++◌, ◌^◌, [], Some, IfOk, OnErr, OnOk, length, refl, vec_capacity, vec_len};
ghost use Rattle.bril_outside.specs.Sink.{PutTimes, Rose, TookAll, TookSome, amount_after};
ghost use Rattle.roolvist_lib.specs.Buffers.{HeldBytes, held_seen};

use bril_outside::sink::{Failed, Sink};
use std::alloc::{AllocError, Global};
use std::marker::{Brand, Model, PhantomData};

/// How many bytes a buffer has room for. A type stands for the number, since a command may be given any sink, and says of no number
/// that it stays as it was.
pub trait Room {
    ghost room: { ℕ };
}

impl Room for Brand {
    ghost room = { 0 };
}

/// A sink for a buffer with the room of `R`, in memory that it reserves when it is made.
///
/// A put fails exactly where more bytes were put than the buffer has room for, and so does each one after it. The sink keeps one byte more
/// than the buffer has room for: so what it keeps tells whether all of it fits.
#[derive(Drop)]
pub struct BufferSink<R: Room> {
    held: Vec<u8>,
    room: usize,
    puts: Option<u64>,
    faults: u64,
    of: PhantomData<R>,
}

impl<R: Room> Model for BufferSink<R> {
    ghost use Rattle.std.specs.Prelude.{◌≡◌, ◌≤◌, ◌<◌, ◌+◌, vec_capacity, vec_len};
    ghost use Rattle.roolvist_lib.specs.Buffers.{HeldBytes};

    ghost Value = { HeldBytes };

    ghost view = { λ s. record { held = s.held.items; puts = s.puts; faults = s.faults } };

    ghost invariant = { λ s. (s.room ≡ R.room) × (s.room + 1 ≤ vec_capacity s.held) × (vec_len s.held ≤ s.room + 1) × (vec_len s.held ≤ s.room → s.faults ≡ 0) × (s.room < vec_len s.held → 0 < s.faults) };
}

impl<R: Room> BufferSink<R> {
    /// A sink that holds nothing yet. Fails only for want of memory.
    pub fn new(alloc: Global, room: usize) -> Result<BufferSink<R>, AllocError>
        requires fits { room < 2 ^ 63 }
        requires is { room ≡ R.room }
        ensures { IfOk result (λ made. made ≡ record { held = []; puts = Some 0; faults = 0 }) }
    {
        Ok(BufferSink {
            held: Vec::with_capacity(alloc, room + 1)?,
            room,
            puts: Some(0),
            faults: 0,
            of: PhantomData,
        })
    }

    /// What was put: all of it, or one byte more than there is room for. Takes no memory.
    pub fn bytes(&self) -> &[u8]
        ensures is { result.now ≡ self.now.held }
        ensures whole { length result.now ≤ R.room → self.now.faults ≡ 0 }
        ensures cut { R.room < length result.now → 0 < self.now.faults }
    {
        self.held.as_slice()
    }
}

impl<R: Room> Sink for BufferSink<R> {
    ghost seen = { held_seen };

    fn put(&mut self, piece: &[u8]) -> Result<(), Failed>
        ensures ok { OnOk result (TookAll (held_seen self.old) piece.now (held_seen self.new)) }
        ensures err { OnErr result (TookSome (held_seen self.old) piece.now (held_seen self.new)
            × Rose self.old.faults self.new.faults) }
        ensures times { PutTimes (held_seen self.old) 1 (held_seen self.new) }
    {
        self.puts = one_more(self.puts);
        let left = self.room + 1 - self.held.len();
        if piece.len() < left {
            append_within(&mut self.held, piece);
            return Ok(());
        }
        append_within(&mut self.held, &piece[..left]);
        self.faults = self.faults.saturating_add(1);
        Err(Failed)
    }

    /// Does nothing: nothing is held back.
    fn flush(&mut self) -> Result<(), Failed> {
        Ok(())
    }

    ghost amount_is_length = { λ s. refl };
}

// A count with one more; none once that would pass `u64::MAX`.
fn one_more(count: Option<u64>) -> Option<u64>
    ensures { result ≡ amount_after count 1 }
{
    count?.checked_add(1)
}

// Appends the piece, for which there is room. Takes no memory.
fn append_within(held: &mut Vec<u8>, piece: &[u8])
    requires { vec_len held.old + length piece.now ≤ vec_capacity held.old }
    ensures items { held.new.items ≡ held.old.items ++ piece.now }
    ensures len { vec_len held.new ≡ vec_len held.old + length piece.now }
    ensures capacity { vec_capacity held.old ≤ vec_capacity held.new }
{
    match held.extend_from_slice(piece) {
        Ok(()) => {}
        Err(_) => unreachable!(),
    }
}
