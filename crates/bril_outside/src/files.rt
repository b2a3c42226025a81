// Files: what bytes are read from, by a path.

ghost use Rattle.std.specs.Prelude.{◌≡◌, ◌≤◌, ◌++◌, nat_le, length, if◌then◌else◌, IfOk, IfErr, OnErr, MatchBool};
ghost use Rattle.bril_outside.specs.Files.{FilesSeen, AppendedFile, FoundLonger, MayFail, ReadTimes};
ghost use Rattle.bril_outside.specs.declared.files.FileFault.TheVariants.{Memory};

use bril_tree::bytes::Bytes;
use bril_tree::text::Text;
use std::alloc::{AllocError, Global};
use thiserror::Error;

/// Why a file was not read.
#[derive(Clone, Copy, PartialEq, Eq, Debug, Drop, Error)]
pub enum FileFault {
    /// The file is not there, or reading it failed.
    #[error("the file could not be read")]
    Failed,
    /// Memory was wanting.
    #[error("out of memory")]
    Memory,
}

impl From<AllocError> for FileFault {
    ghost from_gives = { λ _ e. e ≡ Memory };

    fn from(_fault: AllocError) -> FileFault {
        FileFault::Memory
    }
}

/// What files are read from.
pub trait Files {
    /// What is told of the files.
    ghost seen: { Self → FilesSeen };

    /// Reads the file at the path, of at most `most` bytes.
    ///
    /// `Ok(true)`: the whole file was appended to `into`. `Ok(false)`: the file has more than `most`
    /// bytes, and `into` stays. `Failed`: a fault was counted in this call, or the files are told and have
    /// none at the path. `Memory`: memory was wanting. `into` stays after either error. Where the files are
    /// told, the answer follows them, and they stay; the faults never fall. Each call is one read, also one
    /// that fails; a number of reads that would pass `u64::MAX` is no longer told.
    fn read(
        &mut self,
        alloc: Global,
        path: &Text,
        most: u64,
        into: &mut Bytes,
    ) -> Result<bool, FileFault>
        ensures holds { (seen self.new).holds ≡ (seen self.old).holds }
        ensures faults { (seen self.old).faults ≤ (seen self.new).faults }
        ensures times { ReadTimes (seen self.old) 1 (seen self.new) }
        ensures ok { IfOk result (λ whole. MatchBool whole
            (AppendedFile (seen self.old).holds path.now most into.old into.new)
            (FoundLonger (seen self.old).holds path.now most into.old into.new)) }
        ensures err { OnErr result (into.new ≡ into.old) }
        ensures failed { IfErr result (λ e. e ≡ FileFault.Failed → MayFail (seen self.old) (seen self.new) path.now) };
}

/// Appends the bytes where they are no more than `most`, and says whether it did. Where memory is wanting
/// nothing changes.
pub(crate) fn append_short(bytes: &Bytes, most: u64, into: &mut Bytes) -> Result<bool, FileFault>
    ensures ok { IfOk result (λ whole. whole ≡ nat_le (length bytes.now) most) }
    ensures into { IfOk result (λ whole. into.new ≡ (if whole then into.old ++ bytes.now else into.old)) }
    ensures err { OnErr result (into.new ≡ into.old) }
    ensures memory { IfErr result (λ e. (e ≡ FileFault.Memory) × (length bytes.now ≤ most)) }
{
    let bytes = bytes.as_slice();
    if bytes.len() as u64 > most {
        return Ok(false);
    }
    into.add(bytes)?;
    Ok(true)
}
