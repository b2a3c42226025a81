// A sink in memory.

ghost use Rattle.std.specs.Prelude.{◌≡◌, ◌≤◌, ◌+◌, ◌++◌, [], ◌==◌, IfOk, IsOk, OnOk, OnErr, Some, is_ok, refl, length, vec_len, vec_capacity};
ghost use Rattle.std.specs.List.{list_any};
ghost use Rattle.bril_outside.specs.Sink.{TookAll, TookSome, PutTimes, Rose};
ghost use Rattle.bril_outside.specs.Memory.{SinkMemory, sink_seen, has_number, takes_all, after_put};

use crate::count_sink::count_after;
use crate::sink::{Failed, Sink};
use bril_tree::sequence::Seq;
use std::alloc::{AllocError, Global};
use std::marker::Model;

/// A sink that keeps what is written to it, in memory that it reserves when it is made.
///
/// It counts its puts from 1, and a put whose number is on its list fails and takes nothing. Puts past `u64::MAX` have
/// no number.
#[derive(Drop)]
pub struct MemSink {
    held: Vec<u8>,
    room: u32,
    puts: Option<u64>,
    fails: Seq<u64>,
    faults: u64,
}

impl Model for MemSink {
    ghost use Rattle.std.specs.Prelude.{◌≤◌, vec_len, vec_capacity};
    ghost use Rattle.bril_outside.specs.Memory.{SinkMemory};

    ghost Value = { SinkMemory };

    ghost view = { λ s. record {
      held = s.held.items;
      room = s.room;
      puts = s.puts;
      fails = s.fails;
      faults = s.faults;
    } };

    ghost invariant = { λ s. (vec_len s.held ≤ s.room) × (s.room ≤ vec_capacity s.held) };
}

impl MemSink {
    /// A sink with room for so many bytes, which holds none yet; `fails` lists the numbers of the puts,
    /// from 1, that are to fail. Fails only for want of memory.
    pub fn new(alloc: Global, room: u32, fails: Seq<u64>) -> Result<MemSink, AllocError>
        ensures { IfOk result (λ made.
            made ≡ record { held = []; room = room; puts = Some 0; fails = fails; faults = 0 }) }
    {
        Ok(MemSink {
            held: Vec::with_capacity(alloc, room as usize)?,
            room,
            puts: Some(0),
            fails,
            faults: 0,
        })
    }

    /// What was written. Takes no memory.
    pub fn bytes(&self) -> &[u8]
        ensures { result.now ≡ self.now.held }
    {
        self.held.as_slice()
    }
}

impl Sink for MemSink {
    ghost seen = { sink_seen };

    /// Writes the piece. Takes no memory. Fails exactly where the number of the put is on the list, and
    /// then takes nothing, or where there is no room for the piece, and then takes the part that fits.
    fn put(&mut self, piece: &[u8]) -> Result<(), Failed>
        ensures ok { OnOk result (TookAll (sink_seen self.old) piece.now (sink_seen self.new)) }
        ensures err { OnErr result (TookSome (sink_seen self.old) piece.now (sink_seen self.new)
            × Rose self.old.faults self.new.faults) }
        ensures times { PutTimes (sink_seen self.old) 1 (sink_seen self.new) }
        ensures answer { is_ok result ≡ takes_all self.old piece.now }
        ensures after { self.new ≡ after_put self.old piece.now }
    {
        self.puts = count_after(self.puts, 1);
        if has_number(self.fails.as_slice(), self.puts) {
            self.faults = self.faults.saturating_add(1);
            return Err(Failed);
        }
        let left = self.room as usize - self.held.len();
        if left < piece.len() {
            append_within(&mut self.held, &piece[..left]);
            self.faults = self.faults.saturating_add(1);
            return Err(Failed);
        }
        append_within(&mut self.held, piece);
        Ok(())
    }

    /// Does nothing: nothing is held back.
    fn flush(&mut self) -> Result<(), Failed>
        ensures answer { IsOk result }
        ensures same { self.new ≡ self.old }
    {
        Ok(())
    }

    ghost amount_is_length = { λ s. refl };
}

/// Whether the number, where there is one, is on the list. Takes no memory.
pub(crate) fn has_number(list: &[u64], number: Option<u64>) -> bool
    ensures { result ≡ has_number list.now number }
{
    match number {
        Some(number) => is_listed(list, number),
        None => false,
    }
}

/// Whether the number is on the list. Takes no memory.
fn is_listed(list: &[u64], number: u64) -> bool
    ensures { result ≡ list_any (λ n. n == number) list.now }
{
    list.iter().any(|n| *n == number)
}

/// Appends the piece, for which there is room. Takes no memory.
pub(crate) fn append_within(held: &mut Vec<u8>, piece: &[u8])
    requires { vec_len held.old + length piece.now ≤ vec_capacity held.old }
    ensures items { held.new.items ≡ held.old.items ++ piece.now }
    ensures len { vec_len held.new ≡ vec_len held.old + length piece.now }
    ensures capacity { vec_capacity held.old ≤ vec_capacity held.new }
{
    match held.extend_from_slice(piece) {
        Ok(()) => {}
        Err(_) => unreachable!(),
    }
}
