// Streams that fail, and a system of such files.

use std::alloc::Allocator;
use std::fs::{Metadata, OpenFile, OpenOptions};
use std::io::{self, ErrorKind, Read, Seek, SeekFrom, Write};
use std::rt::Files;

/// How a stream fails.
#[derive(Clone, Copy, Drop)]
pub enum Failing {
    /// It is interrupted, moves two bytes at a time, and fails after four, when it can't be flushed either.
    After,
    /// It fails once, where it is read, or takes nothing once, where it is written to, and is well afterwards.
    Once,
}

/// A stream that fails.
#[derive(Drop)]
pub struct Weak {
    failing: Failing,
    turns: u8,
}

impl Weak {
    /// A stream of which nothing was moved.
    pub fn new(failing: Failing) -> Weak {
        Weak { failing, turns: 0 }
    }

    // How many bytes a stream moves that fails after four.
    fn turn(&self) -> io::Result<usize> {
        match self.turns {
            1 => Err(io::Error::from(ErrorKind::Interrupted)),
            2 | 3 => Ok(2),
            _ => Err(io::Error::from(ErrorKind::Other)),
        }
    }
}

impl Read for Weak {
    fn read(&mut self, buf: &mut [u8]) -> io::Result<usize> {
        self.turns = self.turns.saturating_add(1);
        match self.failing {
            Failing::After => Ok(self.turn()?.min(buf.len())),
            Failing::Once if self.turns == 1 => Err(io::Error::from(ErrorKind::Other)),
            Failing::Once => Ok(0),
        }
    }
}

impl Write for Weak {
    fn write(&mut self, buf: &[u8]) -> io::Result<usize> {
        self.turns = self.turns.saturating_add(1);
        match self.failing {
            Failing::After => Ok(self.turn()?.min(buf.len())),
            Failing::Once if self.turns == 1 => Ok(0),
            Failing::Once => Ok(buf.len()),
        }
    }

    fn flush(&mut self) -> io::Result<()> {
        match self.failing {
            Failing::After if self.turns > 3 => Err(io::Error::from(ErrorKind::Other)),
            _ => Ok(()),
        }
    }
}

impl Seek for Weak {
    fn seek(&mut self, _pos: SeekFrom) -> io::Result<u64> {
        unsupported()
    }
}

impl OpenFile for Weak {
    fn metadata(&self) -> io::Result<Metadata> {
        unsupported()
    }

    fn set_len(&self, _size: u64) -> io::Result<()> {
        unsupported()
    }

    fn sync_all(&self) -> io::Result<()> {
        unsupported()
    }

    fn sync_data(&self) -> io::Result<()> {
        unsupported()
    }
}

/// A system each of whose files is a stream that fails so.
#[derive(Drop)]
pub struct WeakFiles(pub Failing);

impl Files for WeakFiles {
    type File = Weak;

    type Dir = Weak;

    fn open_file(&self, _how: &OpenOptions, _path: &str) -> io::Result<Weak> {
        Ok(Weak::new(self.0))
    }

    fn open_dir(&self, _path: &str) -> io::Result<Weak> {
        unsupported()
    }

    fn metadata(&self, _path: &str) -> io::Result<Metadata> {
        unsupported()
    }

    fn symlink_metadata(&self, _path: &str) -> io::Result<Metadata> {
        unsupported()
    }

    fn copy(&self, _from: &str, _to: &str) -> io::Result<u64> {
        unsupported()
    }

    fn rename(&self, _from: &str, _to: &str) -> io::Result<()> {
        unsupported()
    }

    fn remove_file(&self, _path: &str) -> io::Result<()> {
        unsupported()
    }

    fn create_dir(&self, _path: &str) -> io::Result<()> {
        unsupported()
    }

    fn remove_dir(&self, _path: &str) -> io::Result<()> {
        unsupported()
    }

    fn remove_dir_all<B: Allocator>(&self, _alloc: B, _path: &str) -> io::Result<()> {
        unsupported()
    }
}

fn unsupported<T>() -> io::Result<T> {
    Err(io::Error::from(ErrorKind::Unsupported))
}
