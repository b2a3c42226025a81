// A sink that counts.

ghost use Rattle.std.specs.Prelude.{◌≡◌, ◌+◌, ◌-◌, ◌^◌, Some, unwrap_or};
ghost use Rattle.bril_outside.specs.Sink.{amount_after};

use crate::sink::{Failed, Sink};
use std::marker::Model;

/// A sink that takes every piece and keeps none. It tells how many bytes it took, and by how many puts, each until
/// that would pass `u64::MAX`; from then on it does not tell it.
#[derive(Drop)]
pub struct CountSink {
    amount: Option<u64>,
    puts: Option<u64>,
}

impl Model for CountSink {
    ghost use Rattle.bril_outside.specs.Sink.{Counted};

    ghost Value = { Counted };

    ghost view = { λ s. record { amount = s.amount; puts = s.puts } };
}

impl CountSink {
    /// A sink that took nothing yet. Takes no memory.
    pub fn new() -> CountSink
        ensures { result ≡ record { amount = Some 0; puts = Some 0 } }
    {
        CountSink {
            amount: Some(0),
            puts: Some(0),
        }
    }

    /// How many bytes it took, or `u64::MAX` where that is not told. Takes no memory.
    pub fn bytes(&self) -> u64
        ensures { result ≡ unwrap_or self.now.amount (2 ^ 64 - 1) }
    {
        self.amount.unwrap_or(u64::MAX)
    }
}

impl Sink for CountSink {
    ghost use Rattle.std.specs.Prelude.{◌≡◌, IsOk, length};
    ghost use Rattle.bril_outside.specs.Sink.{count_seen, counted_after};

    ghost seen = { count_seen };

    /// Takes the piece. Never fails, and takes no memory.
    fn put(&mut self, piece: &[u8]) -> Result<(), Failed>
        ensures answer { IsOk result }
        ensures after { self.new ≡ counted_after self.old (length piece.now) }
    {
        self.amount = count_after(self.amount, piece.len() as u64);
        self.puts = count_after(self.puts, 1);
        Ok(())
    }

    /// Does nothing: nothing is held back.
    fn flush(&mut self) -> Result<(), Failed>
        ensures answer { IsOk result }
        ensures same { self.new ≡ self.old }
    {
        Ok(())
    }

    ghost amount_is_length = { λ s. tt };
}

/// A count with so many more; none once that would pass `u64::MAX`. Takes no memory.
pub(crate) fn count_after(count: Option<u64>, more: u64) -> Option<u64>
    ensures { result ≡ amount_after count more }
{
    count?.checked_add(more)
}
