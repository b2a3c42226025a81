// The files of the system.

ghost use Rattle.std.specs.Prelude.{◌≡◌, ◌≤◌, ◌^◌, ◌-◌, ◌+◌, min, None, IfOk, IfErr, OnErr, MatchBool, length};
ghost use Rattle.bril_outside.specs.Adapter.{ReadsUpTo, AppendedRest, FoundMore, untold_files, faults_after};
ghost use Rattle.bril_outside.specs.Files.{AppendedFile, FoundLonger, MayFail, ReadTimes};

use crate::files::{FileFault, Files, append_short};
use bril_tree::bytes::Bytes;
use bril_tree::text::Text;
use std::alloc::Global;
use std::fs;
use std::io::{ErrorKind, Read};
use std::marker::Model;

/// The files of a runtime. They tell no content, and count their faults up to `u64::MAX`. Contracts see that count.
pub struct OsFiles<'a, R> {
    rt: &'a R,
    faults: u64,
}

impl<'a, R> Drop for OsFiles<'a, R> {
    fn drop(self) {
        let OsFiles { rt: _, faults: _ } = self;
    }
}

impl<'a, R> Model for OsFiles<'a, R> {
    ghost use Rattle.std.specs.Prelude.{ℕ};

    ghost Value = { ℕ };

    ghost view = { λ s. s.faults };
}

impl<'a, R: std::rt::Files> OsFiles<'a, R> {
    /// The files of the runtime. Takes no memory.
    pub fn new(rt: &'a R) -> OsFiles<'a, R>
        ensures { result ≡ 0 }
    {
        OsFiles { rt, faults: 0 }
    }
}

impl<'a, R: std::rt::Files> Files for OsFiles<'a, R> {
    ghost use Rattle.bril_outside.specs.Adapter.{untold_files};

    ghost seen = { untold_files };

    /// Reads the file at the path, of at most `most` bytes. Fails where the file cannot be opened, or a read
    /// fails other than by an interruption; exactly where it fails a fault is counted. No clause says what a file of
    /// the system holds, or when a read of it fails. It takes memory for the bytes a second time while it reads.
    fn read(
        &mut self,
        alloc: Global,
        path: &Text,
        most: u64,
        into: &mut Bytes,
    ) -> Result<bool, FileFault>
        ensures ok { IfOk result (λ whole. MatchBool whole
            (AppendedFile None path.now most into.old into.new)
            (FoundLonger None path.now most into.old into.new)) }
        ensures err { OnErr result (into.new ≡ into.old) }
        ensures faults { self.old ≤ self.new }
        ensures times { ReadTimes (untold_files self.old) 1 (untold_files self.new) }
        ensures counted { self.new ≡ faults_after result self.old }
        ensures failed { IfErr result (λ e. e ≡ FileFault.Failed →
            MayFail (untold_files self.old) (untold_files self.new) path.now) }
    {
        let answer = match fs::open(self.rt, path.as_str()) {
            Ok(mut file) => append_rest(&mut file, alloc, most, into),
            Err(_) => Err(FileFault::Failed),
        };
        if matches!(answer, Err(FileFault::Failed)) {
            self.faults = self.faults.saturating_add(1);
        }
        answer
    }
}

/// Appends the bytes that the reader has left where they are at most `most`, and says whether it did. Of more
/// than `most` bytes it reads the first alone.
pub(crate) fn append_rest<R: Read>(
    from: &mut R,
    alloc: Global,
    most: u64,
    into: &mut Bytes,
) -> Result<bool, FileFault>
    ensures ok { IfOk result (λ whole. MatchBool whole
        (AppendedRest (R.remaining from.old) (R.remaining from.new) most into.old into.new)
        (FoundMore (R.remaining from.old) (R.remaining from.new) most into.old into.new)) }
    ensures err { OnErr result (into.new ≡ into.old) }
{
    let bytes = read_up_to(from, alloc, most)?;
    append_short(&bytes, most, into)
}

/// The bytes that the reader has left, or the first of them, more than `most`.
fn read_up_to<R: Read>(from: &mut R, alloc: Global, most: u64) -> Result<Bytes, FileFault>
    ensures { IfOk result (λ bytes. ReadsUpTo (R.remaining from.old) (R.remaining from.new) most bytes) }
{
    let mut bytes = Bytes::new(alloc);
    let mut chunk = [0u8; 4096];
    for _ in 0..u64::MAX {
        match from.read(&mut chunk) {
            Ok(0) => return Ok(bytes),
            Ok(count) => bytes.add(&chunk[..count])?,
            Err(fault) if fault.kind() == ErrorKind::Interrupted => {}
            Err(_) => return Err(FileFault::Failed),
        }
        if bytes.as_slice().len() as u64 > most {
            return Ok(bytes);
        }
    }
    Err(FileFault::Failed)
}
