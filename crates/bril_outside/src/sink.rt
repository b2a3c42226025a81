// Sinks: what bytes are written to.

ghost use Rattle.std.specs.Prelude.{OnOk, OnErr, [], ◌∷◌};
ghost use Rattle.bril_outside.specs.Sink.{SinkSeen, Rose, Flushed, HandedOn, TookAll, TookSome, PutTimes, PutAll, PutSome, AmountIsLength};

use thiserror::Error;

/// A write did not take all of its bytes. The one error of a sink.
#[derive(Clone, Copy, PartialEq, Eq, Debug, Drop, Error)]
#[error("the write failed")]
pub struct Failed;

/// What bytes are written to.
pub trait Sink {
    /// What is told of the sink.
    ghost seen: { Self → SinkSeen };

    /// Writes the piece. Takes no memory. What was written may be held back by the sink until `flush`.
    ///
    /// `Ok`: the whole piece was written. `Failed`: the sink counted a fault in this call, and the first
    /// bytes of the piece, perhaps none, were written. A sink that takes nothing of a piece that isn't
    /// empty counts a fault. What the sink tells before a call it tells after it, except an amount or a
    /// number of puts that would pass `u64::MAX`; what it does not tell before it does not tell after. Each
    /// call is one put, also one that fails and one of an empty piece.
    fn put(&mut self, piece: &[u8]) -> Result<(), Failed>
        ensures ok { OnOk result (TookAll (seen self.old) piece.now (seen self.new)) }
        ensures err { OnErr result (TookSome (seen self.old) piece.now (seen self.new)
            × Rose (seen self.old).faults (seen self.new).faults) }
        ensures times { PutTimes (seen self.old) 1 (seen self.new) };

    /// Hands on all that was written and is still held back. Takes no memory.
    ///
    /// `Ok`: all of it is out, and the sink counted no fault in this call. `Failed`: the sink counted a fault in this call,
    /// and some of it may be lost. Either way what the sink tells stays, but for its faults. It is no put.
    fn flush(&mut self) -> Result<(), Failed>
        ensures kept { Flushed (seen self.old) (seen self.new) }
        ensures ok { OnOk result (HandedOn (seen self.old) (seen self.new)) }
        ensures err { OnErr result (Rose (seen self.old).faults (seen self.new).faults) };

    /// The amount is the length of what was written, where both are told.
    ghost amount_is_length: { (s : Self) → AmountIsLength (seen s) };
}

/// Writes the pieces, one after another, each by one put. Takes no memory.
///
/// `Ok`: both were written. `Failed`: the sink counted a fault in the put of a piece, of which the first bytes,
/// perhaps none, were written; those before it were written, and none after it was put.
pub fn put_two<S: Sink>(sink: &mut S, first: &[u8], second: &[u8]) -> Result<(), Failed>
    ensures ok { OnOk result (PutAll (S.seen sink.old) (first.now ∷ second.now ∷ []) (S.seen sink.new)) }
    ensures err { OnErr result (PutSome (S.seen sink.old) (first.now ∷ second.now ∷ []) (S.seen sink.new)) }
{
    sink.put(first)?;
    match sink.put(second) {
        Ok(()) => Ok(()),
        Err(failed) => Err(failed),
    }
}

/// Writes the pieces, one after another, each by one put. Takes no memory.
///
/// `Ok`: all three were written. `Failed`: the sink counted a fault in the put of a piece, of which the first bytes,
/// perhaps none, were written; those before it were written, and none after it was put.
pub fn put_three<S: Sink>(
    sink: &mut S,
    first: &[u8],
    second: &[u8],
    third: &[u8],
) -> Result<(), Failed>
    ensures ok { OnOk result (PutAll (S.seen sink.old) (first.now ∷ second.now ∷ third.now ∷ []) (S.seen sink.new)) }
    ensures err { OnErr result (PutSome (S.seen sink.old) (first.now ∷ second.now ∷ third.now ∷ []) (S.seen sink.new)) }
{
    sink.put(first)?;
    match put_two(sink, second, third) {
        Ok(()) => Ok(()),
        Err(failed) => Err(failed),
    }
}
