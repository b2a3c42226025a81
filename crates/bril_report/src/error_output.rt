// The error output.

ghost use Rattle.std.specs.Prelude.{[], ◌∷◌, map};
ghost use Rattle.bril_report.specs.Told.{IsSoundOn, Tells};

use bril_outside::sink::{Failed, Sink};

/// An error output: nothing more is put on its sink once a put has failed. So what is told needs no look at whether what was told
/// before it failed.
#[derive(Drop)]
pub struct ErrorOutput<'a, E> {
    sink: &'a mut E,
    has_failed: bool,
}

impl<'a, E: Sink> ErrorOutput<'a, E> {
    /// An error output on the sink, on which no put failed yet.
    pub fn new(sink: &'a mut E) -> ErrorOutput<'a, E>
        ensures { IsSoundOn E.seen sink.entry result }
    {
        ErrorOutput {
            sink,
            has_failed: false,
        }
    }

    /// Puts the piece by one put, unless a put failed before.
    pub fn put(&mut self, piece: &[u8])
        ensures { Tells E.seen self.old (piece.now ∷ []) self.new }
    {
        if self.has_failed {
            return;
        }
        match self.sink.put(piece) {
            Ok(()) => {}
            Err(Failed) => self.has_failed = true,
        }
    }

    /// Puts the pieces in their order, each by one put, up to the last or to one whose put fails; none where a put failed before.
    pub fn put_all(&mut self, pieces: &[&[u8]])
        ensures { Tells E.seen self.old (map (λ piece. piece.now) pieces.now) self.new }
    {
        match pieces.split_first() {
            None => {}
            Some((piece, rest)) => {
                self.put(*piece);
                self.put_all(rest);
            }
        }
    }
}
