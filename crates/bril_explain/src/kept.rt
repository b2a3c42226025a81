// Files that were kept as they were read.

ghost use Rattle.std.specs.Prelude.{◌≡◌, None, Some, MatchOption};
ghost use Rattle.std.specs.Option.{option_copied};
ghost use Rattle.bril_explain.specs.Kept.{bytes_at, function_in, kept_seen};

use bril_outside::files::{FileFault, Files};
use bril_tree::bytes::Bytes;
use bril_tree::text::Text;
use std::alloc::Global;

/// A file as it was read: its path, its bytes, and how many functions its tree has, 0 where it has no tree.
#[derive(Drop)]
pub struct KeptFile {
    pub path: Text,
    pub bytes: Bytes,
    pub functions: usize,
}

/// Files that were kept, to be read as often as is liked. A read fails where no file has the path, and for want of memory.
#[derive(Drop)]
pub struct KeptFiles<'k> {
    pub list: &'k [KeptFile],
}

impl<'k> Files for KeptFiles<'k> {
    ghost seen = { λ files. kept_seen files.list.now };

    fn read(
        &mut self,
        _alloc: Global,
        path: &Text,
        most: u64,
        into: &mut Bytes,
    ) -> Result<bool, FileFault> {
        let Some(bytes) = bytes_at(self.list, path.as_bytes()) else {
            return Err(FileFault::Failed);
        };
        let bytes = bytes.as_slice();
        if bytes.len() as u64 > most {
            return Ok(false);
        }
        into.add(bytes)?;
        Ok(true)
    }
}

// The bytes of the first file that has the path.
pub fn bytes_at<'k>(kept: &'k [KeptFile], path: &[u8]) -> Option<&'k Bytes>
    ensures { option_copied result ≡ bytes_at kept.now path.now }
{
    let mut rest = kept;
    while let Some((file, others)) = rest.split_first() {
        if file.path.as_bytes() == path {
            return Some(&file.bytes);
        }
        rest = others;
    }
    None
}

// A function of a file that was kept, by its number there.
#[derive(Clone, Copy, Drop)]
pub struct FileFunction<'k> {
    pub file: &'k KeptFile,
    pub func: usize,
}

// The file in which a function of the linked program stands, and its number there.
pub fn function_in(kept: &[KeptFile], func: usize) -> Option<FileFunction<'_>>
    ensures { MatchOption result (function_in kept.now func ≡ None) (λ found. function_in kept.now func ≡ Some (found.file.now, found.func)) }
{
    let mut rest = kept;
    let mut left = func;
    while let Some((file, others)) = rest.split_first() {
        if left < file.functions {
            return Some(FileFunction { file, func: left });
        }
        left -= file.functions;
        rest = others;
    }
    None
}
