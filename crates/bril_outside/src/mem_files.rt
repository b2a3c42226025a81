// Files in memory.

ghost use Rattle.std.specs.Prelude.{◌≡◌, ◌≤◌, ◌++◌, [], IfOk, IfErr, OnOk, OnErr, MatchBool, Some, position};
ghost use Rattle.std.specs.Option.{option_copied};
ghost use Rattle.std.specs.Str.{bytes_eq};
ghost use Rattle.bril_outside.specs.Files.{AppendedFile, FoundLonger};
ghost use Rattle.bril_outside.specs.Memory.{FilesMemory, files_seen, file_at, AnswersRead, read_answer, after_read, ChangesFile};

use crate::count_sink::count_after;
use crate::files::{FileFault, Files, append_short};
use crate::mem_sink::has_number;
use crate::stored_file::StoredFile;
use bril_tree::bytes::Bytes;
use bril_tree::sequence::Seq;
use bril_tree::text::Text;
use std::alloc::{AllocError, Global};
use std::marker::Model;

/// Files that lie in memory.
///
/// They count their reads from 1 until that would pass `u64::MAX`, and a read whose number is on their list fails. The faults that
/// they tell are these failed reads alone.
#[derive(Drop)]
pub struct MemFiles {
    alloc: Global,
    files: Vec<StoredFile>,
    reads: Option<u64>,
    fails: Seq<u64>,
    faults: u64,
}

impl Model for MemFiles {
    ghost use Rattle.bril_outside.specs.Memory.{FilesMemory};

    ghost Value = { FilesMemory };

    ghost view = { λ s. record {
      files = s.files.items;
      reads = s.reads;
      fails = s.fails;
      faults = s.faults;
    } };
}

impl MemFiles {
    /// No files; those that are added will lie in memory of `alloc`. `fails` lists the numbers of the
    /// reads, from 1, that are to fail. Takes no memory.
    pub fn new(alloc: Global, fails: Seq<u64>) -> MemFiles
        ensures { result ≡ record { files = []; reads = Some 0; fails = fails; faults = 0 } }
    {
        MemFiles {
            alloc,
            files: Vec::new(alloc),
            reads: Some(0),
            fails,
            faults: 0,
        }
    }

    /// Puts a file with these bytes at the path, in place of one that is there. Where memory is wanting
    /// nothing changes.
    pub fn add(&mut self, path: &Text, bytes: &[u8]) -> Result<(), AllocError>
        ensures ok { OnOk result
            (ChangesFile (file_at self.old.files) (file_at self.new.files) path.now bytes.now) }
        ensures rest { self.new ≡ record self.old { files = self.new.files } }
        ensures err { OnErr result (self.new ≡ self.old) }
    {
        let mut copy = Bytes::new(self.alloc);
        copy.add(bytes)?;
        match place_of(self.files.as_slice(), path) {
            Some(place) => self.files[place].bytes = copy,
            None => {
                let path = Text::of(self.alloc, path.as_str())?;
                self.files.push(StoredFile { path, bytes: copy })?;
            }
        }
        Ok(())
    }
}

impl Files for MemFiles {
    ghost seen = { files_seen };

    /// Reads the file at the path, of at most `most` bytes. Fails exactly where the number of the read is on
    /// the list, or no file is at the path; only the first counts as a fault. Memory is wanted for a file that
    /// is appended alone.
    fn read(
        &mut self,
        _alloc: Global,
        path: &Text,
        most: u64,
        into: &mut Bytes,
    ) -> Result<bool, FileFault>
        ensures answer { AnswersRead (read_answer self.old path.now most) result }
        ensures after { self.new ≡ after_read self.old }
        ensures ok { IfOk result (λ whole. MatchBool whole
            (AppendedFile (files_seen self.old).holds path.now most into.old into.new)
            (FoundLonger (files_seen self.old).holds path.now most into.old into.new)) }
        ensures err { OnErr result (into.new ≡ into.old) }
    {
        self.reads = count_after(self.reads, 1);
        if has_number(self.fails.as_slice(), self.reads) {
            self.faults = self.faults.saturating_add(1);
            return Err(FileFault::Failed);
        }
        match bytes_at(self.files.as_slice(), path) {
            None => Err(FileFault::Failed),
            Some(bytes) => append_short(bytes, most, into),
        }
    }
}

/// The place of the first file that has the path. Takes no memory.
fn place_of(files: &[StoredFile], path: &Text) -> Option<usize>
    ensures { result ≡ position (λ f. bytes_eq f.path path.now) files.now }
{
    files
        .iter()
        .position(|file| file.path.as_bytes() == path.as_bytes())
}

/// The bytes of the first file that has the path. Takes no memory.
fn bytes_at<'a>(files: &'a [StoredFile], path: &Text) -> Option<&'a Bytes>
    ensures { option_copied result ≡ file_at files.now path.now }
{
    let place = place_of(files, path)?;
    Some(&files[place].bytes)
}
