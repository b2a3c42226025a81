// A sink over a writer of the system.

ghost use Rattle.std.specs.Prelude.{◌≡◌, ◌≤◌, ◌+◌, ◌-◌, ◌++◌, [], IfOk, OnOk, OnErr, None, true, false, is_ok, if◌then◌else◌, length, take, drop, vec_len, vec_capacity};
ghost use Rattle.std.specs.Io.KnownBytes.{Appends, Keeps, append_known};
ghost use Rattle.bril_outside.specs.Sink.{next_count};
ghost use Rattle.bril_outside.specs.Adapter.{Writes, bytes_over};

use crate::mem_sink::append_within;
use crate::sink::{Failed, Sink};
use std::alloc::{AllocError, Global};
use std::io::{ErrorKind, Write};
use std::marker::Model;

/// A sink that hands all that is written to it on to a writer. It may have a buffer: what it holds there it hands on where a piece has no
/// room beside it, and when it is flushed. It tells no content, and counts its faults up to `u64::MAX`. Contracts see the writer, the bytes
/// in the buffer, and that count. A sink that is dropped before it is flushed loses what it holds.
#[derive(Drop)]
pub struct OsSink<W> {
    out: W,
    held: Vec<u8>,
    room: u32,
    by_line: bool,
    faults: u64,
    is_out: bool,
}

impl<W> Model for OsSink<W> {
    ghost use Rattle.std.specs.Prelude.{◌≡◌, ◌≤◌, true, [], vec_len, vec_capacity};
    ghost use Rattle.bril_outside.specs.Adapter.{SinkOver};

    ghost Value = { SinkOver W };

    ghost view = { λ s. record { out = s.out; held = s.held.items; faults = s.faults; is_out = s.is_out } };

    ghost invariant = { λ s. (vec_len s.held ≤ s.room) × (s.room ≤ vec_capacity s.held) × (s.is_out ≡ true → s.held.items ≡ []) };
}

impl<W: Write + Drop> OsSink<W> {
    /// A sink over the writer that holds nothing back. Takes no memory.
    pub fn new(alloc: Global, out: W) -> OsSink<W>
        ensures { result ≡ record { out = out; held = []; faults = 0; is_out = true } }
    {
        OsSink {
            out,
            held: Vec::new(alloc),
            room: 0,
            by_line: false,
            faults: 0,
            is_out: true,
        }
    }

    /// A sink over the writer with a buffer for so many bytes. Fails only for want of memory; then the writer is dropped.
    pub fn buffered(alloc: Global, room: u32, out: W) -> Result<OsSink<W>, AllocError>
        ensures { IfOk result (λ sink. sink ≡ record { out = out; held = []; faults = 0; is_out = true }) }
    {
        Ok(OsSink {
            held: Vec::with_capacity(alloc, room as usize)?,
            out,
            room,
            by_line: false,
            faults: 0,
            is_out: true,
        })
    }

    /// A sink over the writer with a buffer for so many bytes, which is flushed after each piece with LF in it, as is usual on a terminal.
    /// Fails only for want of memory; then the writer is dropped.
    pub fn by_line(alloc: Global, room: u32, out: W) -> Result<OsSink<W>, AllocError>
        ensures { IfOk result (λ sink. sink ≡ record { out = out; held = []; faults = 0; is_out = true }) }
    {
        let mut sink = OsSink::buffered(alloc, room, out)?;
        sink.by_line = true;
        Ok(sink)
    }

    // Writes a piece for which there is no room beside what is held, or after which the sink may be flushed.
    #[inline(never)]
    fn put_through(&mut self, piece: &[u8]) -> Result<(), Failed>
        requires held { self.old.is_out ≡ false }
        ensures held { self.new.is_out ≡ false }
        ensures bytes { Writes (bytes_over W.contents self.old) (bytes_over W.contents self.new) piece.now result }
        ensures faults { self.new.faults ≡ self.old.faults }
    {
        self.hold(piece)?;
        if self.by_line && piece.contains(&b'\n') {
            return write_out(&mut self.out, &mut self.held);
        }
        Ok(())
    }

    // Holds the piece, or hands it on where it is longer than the buffer; before that what is held, where it has no room beside it.
    fn hold(&mut self, piece: &[u8]) -> Result<(), Failed>
        requires held { self.old.is_out ≡ false }
        ensures held { self.new.is_out ≡ false }
        ensures bytes { Writes (bytes_over W.contents self.old) (bytes_over W.contents self.new) piece.now result }
        ensures faults { self.new.faults ≡ self.old.faults }
    {
        if piece.len() > self.room as usize - self.held.len() {
            write_held(&mut self.out, &mut self.held)?;
        }
        if piece.len() > self.room as usize {
            return write_whole(&mut self.out, piece);
        }
        append(&mut self.held, piece);
        Ok(())
    }
}

impl<W: Write + Drop> Sink for OsSink<W> {
    ghost seen = { λ s. record { written = None; amount = None; puts = None; faults = s.faults; is_out = s.is_out } };

    /// Writes the piece. Takes no memory of its own. Fails where the writer fails, other than by an interruption, or takes
    /// nothing of bytes that are left; and on a sink that goes by lines where the writer cannot be flushed. No clause says
    /// when a writer fails or what a flush does: where the bytes that it holds are known, they and what the sink holds behind them grow by
    /// the piece, or by the first of it after an error.
    #[inline]
    fn put(&mut self, piece: &[u8]) -> Result<(), Failed>
        ensures bytes { Writes (bytes_over W.contents self.old) (bytes_over W.contents self.new) piece.now result }
        ensures faults { self.new.faults
            ≡ (if is_ok result then self.old.faults else next_count self.old.faults) }
    {
        self.is_out = false;
        if !self.by_line && piece.len() <= self.room as usize - self.held.len() {
            append(&mut self.held, piece);
            return Ok(());
        }
        let done = self.put_through(piece);
        if done.is_err() {
            self.faults = self.faults.saturating_add(1);
        }
        done
    }

    /// Hands on what is held, and flushes the writer. Takes no memory of its own. Fails where the writer fails, other than by an
    /// interruption, or takes nothing of bytes that are left, or cannot be flushed. What it didn't take is still held.
    fn flush(&mut self) -> Result<(), Failed>
        ensures bytes { Keeps (bytes_over W.contents self.old) (bytes_over W.contents self.new) }
        ensures empty { OnOk result (self.new.held ≡ []) }
        ensures ok { OnOk result (self.new.is_out ≡ true) }
        ensures faults { self.new.faults
            ≡ (if is_ok result then self.old.faults else next_count self.old.faults) }
    {
        let done = write_out(&mut self.out, &mut self.held);
        match done {
            Ok(()) => self.is_out = true,
            Err(Failed) => self.faults = self.faults.saturating_add(1),
        }
        done
    }

    ghost amount_is_length = { λ s. tt };
}

// Appends the piece, for which there is room. Many pieces are a single byte, such as LF.
#[inline(always)]
fn append(held: &mut Vec<u8>, piece: &[u8])
    requires { vec_len held.old + length piece.now ≤ vec_capacity held.old }
    ensures items { held.new.items ≡ held.old.items ++ piece.now }
    ensures len { vec_len held.new ≡ vec_len held.old + length piece.now }
    ensures capacity { vec_capacity held.old ≤ vec_capacity held.new }
{
    match piece {
        [byte] => held.push_reserved(*byte),
        _ => append_within(held, piece),
    }
}

// Hands on what is held, and flushes the writer.
fn write_out<W: Write>(out: &mut W, held: &mut Vec<u8>) -> Result<(), Failed>
    ensures bytes { Keeps (append_known (W.contents out.old) held.old.items) (append_known (W.contents out.new) held.new.items) }
    ensures ok { OnOk result (held.new.items ≡ []) }
    ensures len { vec_len held.new ≤ vec_len held.old }
    ensures capacity { vec_capacity held.new ≡ vec_capacity held.old }
{
    write_held(out, held)?;
    flush_writer(out)
}

// Hands on what is held. What the writer doesn't take is still held.
fn write_held<W: Write>(out: &mut W, held: &mut Vec<u8>) -> Result<(), Failed>
    ensures bytes { Keeps (append_known (W.contents out.old) held.old.items) (append_known (W.contents out.new) held.new.items) }
    ensures ok { OnOk result (held.new.items ≡ []) }
    ensures empty { OnOk result (vec_len held.new ≡ 0) }
    ensures len { vec_len held.new ≤ vec_len held.old }
    ensures capacity { vec_capacity held.new ≡ vec_capacity held.old }
{
    let (count, done) = write_first(out, held.as_slice());
    remove_first(held, count);
    done
}

// Removes the first bytes, so many.
fn remove_first(held: &mut Vec<u8>, count: usize)
    requires { count ≤ vec_len held.old }
    ensures items { held.new.items ≡ drop count held.old.items }
    ensures len { vec_len held.new ≡ vec_len held.old - count }
    ensures capacity { vec_capacity held.new ≡ vec_capacity held.old }
{
    let len = held.len();
    held.as_mut_slice().copy_within(count..len, 0);
    held.truncate(len - count);
}

// Flushes the writer.
fn flush_writer<W: Write>(out: &mut W) -> Result<(), Failed>
    ensures { Keeps (W.contents out.old) (W.contents out.new) }
{
    out.flush().map_err(|_| Failed)
}

// Writes all of the bytes.
fn write_whole<W: Write>(out: &mut W, bytes: &[u8]) -> Result<(), Failed>
    ensures { Writes (W.contents out.old) (W.contents out.new) bytes.now result }
{
    let (_, done) = write_first(out, bytes);
    done
}

// Writes the bytes up to a failure, and says how many were written.
fn write_first<W: Write>(out: &mut W, bytes: &[u8]) -> (usize, Result<(), Failed>)
    ensures most { result.0 ≤ length bytes.now }
    ensures all { OnOk result.1 (result.0 ≡ length bytes.now) }
    ensures grew { Appends (W.contents out.old) (W.contents out.new) (take result.0 bytes.now) }
{
    let mut written = 0;
    for _ in 0..u64::MAX {
        if written == bytes.len() {
            return (written, Ok(()));
        }
        match write_some(out, &bytes[written..]) {
            Ok(count) => written += count,
            Err(failed) => return (written, Err(failed)),
        }
    }
    (written, Err(Failed))
}

// Writes the first of the bytes, which are some, and says how many: none only where it was interrupted.
fn write_some<W: Write>(out: &mut W, bytes: &[u8]) -> Result<usize, Failed>
    ensures ok { IfOk result (λ n. (n ≤ length bytes.now)
        × Appends (W.contents out.old) (W.contents out.new) (take n bytes.now)) }
    ensures err { OnErr result (Appends (W.contents out.old) (W.contents out.new) []) }
{
    match out.write(bytes) {
        Ok(0) => Err(Failed),
        Ok(count) => Ok(count),
        Err(fault) if fault.kind() == ErrorKind::Interrupted => Ok(0),
        Err(_) => Err(Failed),
    }
}
